// What apply is asked where 13 refuses no lane, with a mask of AppSels, 1 to 15, that has those of all chosen lanes.
ghost use Rattle.control_set.specs.Chosen.{Serves};

use crate::chosen::Chosen;

#[derive(Clone, Copy)]
pub struct Served<'a> {
    pub chosen: Chosen<'a>,
    pub apps: usize,
    ghost serves: { Serves chosen apps },
}
