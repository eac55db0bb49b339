// The host's plan, at apply: 13 and 14, each as a mask of the lanes that it holds of, and the bits that are copied.
ghost use Rattle.std.specs.Prelude.{◌≡◌, ◌*◌, ◌^◌, ◌≤◌, ◌<◌};
ghost use Rattle.rules.specs.Descriptor.{is_app};
ghost use Rattle.rules.specs.Refuse.{chooses};
ghost use Rattle.control_set.specs.Lanes.{Lanes, NoLane, AtLowest};
ghost use Rattle.control_set.specs.Chosen.{app_of, lacks_by, copies_by, Wanted, has_one_of};
ghost use Rattle.control_set.specs.Served.{ServedAs};
ghost use Rattle.control_set.specs.Plan.{own_entry, Walk, refused_among, Cached, Laid, Parts, Planned};

use crate::bank::app_sel_at;
use crate::chosen::Chosen;
use crate::judge::refused_lanes;
use crate::lanes::{Lane, at_lowest, has_bit, has_lane, lanes_where, spread_all};
use crate::place::PlacedFields;
use crate::served::Served;
use descriptor::{CLASSES, Mark, ROWS};
use rules::Refusal;

// A byte for each of a set, and eight behind them, since a part is planned by eight bytes (no heap).
pub type Plan = [u8; 264];

// Some of the wanted AppSels, a bit for each, and the lanes with one of them. The next entry often has the same. Their bits by width stand beside
// it: as a member they would be answered, and copied, for each entry.
#[derive(Clone, Copy)]
pub struct Last {
    pub apps: usize,
    pub lanes: u8,
}

fn is_app(count: usize, app: usize) -> bool
    ensures { result ≡ is_app count app }
{
    (1..=count).contains(&app)
}

impl<'a> Chosen<'a> {
    fn has(self, lane: Lane) -> bool
        ensures { result ≡ chooses self.entry.lanes lane.number }
    {
        has_lane(self.lanes, lane)
    }

    // The AppSel of a lane.
    fn app(self, lane: Lane) -> usize
        ensures { result ≡ app_of self.entry lane.number }
    {
        self.bank[app_sel_at(self.set, lane)] as usize
    }

    // 13: whether a chosen lane's AppSel is 0 or above the count.
    #[tactic(auto, unfolding(crate::specs::Chosen::lacks_by))]
    fn lacks_app(self, lane: Lane) -> bool
        ensures { result ≡ lacks_by self.entry lane.number }
    {
        self.has(lane) & !is_app(self.desc.count, self.app(lane))
    }

    // All such lanes.
    fn lacking(self) -> u8
        ensures { Lanes 9 (lacks_by self.entry) result }
    {
        lanes_where(|lane| self.lacks_app(lane))
    }

    // A mask that has the AppSel of every chosen lane, where 13 refuses none.
    fn wanted(self) -> usize
        requires { NoLane (lacks_by self) }
        ensures { Wanted 9 self.entry result }
    {
        let mut apps = 0;
        for number in 1..=8 {
            let lane = Lane { number };
            let has = self.has(lane) as usize;
            apps = apps | (has << (self.app(lane) & 15));
        }
        apps
    }

    // 13, or what apply copies by.
    pub fn served(self) -> Result<Served<'a>, Refusal>
        ensures { ServedAs self.entry result }
    {
        at_lowest(13, self.lacking())?;
        Ok(Served {
            chosen: self,
            apps: self.wanted(),
        })
    }
}

impl Served<'_> {
    // Whether a lane is chosen and has one of some AppSels, a bit for each.
    #[tactic(auto, unfolding(crate::specs::Chosen::lacks_by))]
    fn has_one_of(self, apps: usize, lane: Lane) -> bool
        ensures { result ≡ has_one_of self.entry.chosen apps lane.number }
    {
        self.chosen.has(lane) & has_bit(apps, self.chosen.app(lane) & 15)
    }

    // All such lanes.
    fn lanes_with(self, apps: usize) -> u8
        ensures { Lanes 9 (has_one_of self.entry.chosen apps) result }
    {
        lanes_where(|lane| self.has_one_of(apps, lane))
    }

    // Those of the wanted AppSels that an entry with this application mask has, bit n of which means AppSel n + 1: the lanes that it is
    // copied in, with their bits by width.
    fn lanes_of(self, last: Last, mask: u16, spreads: &mut [usize; 9]) -> Last
        requires { Cached self.chosen last spreads.old }
        ensures lanes { Lanes 9 (copies_by self.entry.chosen mask) result.lanes }
        ensures cached { Cached self.entry.chosen result spreads.new }
    {
        let own = (2 * mask as usize) & self.apps;
        if own == last.apps {
            return last;
        }
        let mut lanes = self.chosen.lanes;
        if own != self.apps {
            lanes = self.lanes_with(own);
        }
        spread_all(lanes, spreads);
        Last { apps: own, lanes }
    }
}

// The bits of a part in the plan, in one move of eight bytes. It has no bits past its end, and the plan none there yet.
fn plan_part(plan: &mut Plan, at: usize, bits: usize)
    requires { at ≤ 256 }
    ensures { Laid 8 at bits plan.old plan.new }
{
    plan[at..at + 8].copy_from_slice(&bits.to_le_bytes());
}

// The same bits in every part of an entry.
fn plan_entry(plan: &mut Plan, f: PlacedFields, bits: usize)
    requires { (bits < 2 ^ (8 * f.fields.width)) × Parts 0 f.fields.offset f.fields.width bits plan.old plan.old }
    ensures { Parts f.fields.parts f.fields.offset f.fields.width bits plan.old plan.new }
{
    let f = f.fields;
    for part in 0..f.parts {
        plan_part(plan, f.offset + part * f.width, bits);
    }
}

// The RW entries, one by one: the bits to be copied, in a plan that has none; then 14.
pub fn plan_all(served: Served, entries: usize, plan: &mut Plan) -> Result<(), Refusal>
    requires walk { Walk served.chosen.desc.count served.chosen.desc.rw.now entries }
    requires planned { Planned served.chosen 0 (own_entry served.chosen) plan.old }
    ensures answer { AtLowest 14 (refused_among served.entry.chosen entries (own_entry served.entry.chosen)) result }
    ensures after { Planned served.entry.chosen entries (own_entry served.entry.chosen) plan.new }
{
    let chosen = served.chosen;
    let mut spreads = [0; 9];
    let mut last = Last { apps: 0, lanes: 0 };
    let mut refused = 0;
    let mut mark = Mark { at: 0, sum: 0 };
    for _ in 0..entries {
        let entry = chosen.desc.entry_read(&CLASSES, &ROWS, mark);
        let fields = entry.named.fields;
        if 0 < fields.parts {
            let f = PlacedFields { fields };
            last = served.lanes_of(last, entry.mask, &mut spreads);
            plan_entry(plan, f, spreads[fields.width]);
            let bad = refused_lanes(chosen, mark.at, entry.named.id, f);
            refused = refused | (last.lanes & bad);
        }
        mark = entry.next;
    }
    at_lowest(14, refused)
}
