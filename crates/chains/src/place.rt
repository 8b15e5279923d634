// A place in a chain, at which a thread joins it: behind `last` and before `here`, 0 for nobody, as records
// have it that are linked by such numbers.
#[derive(Clone, Copy)]
pub struct Place {
    pub last: u8,
    pub here: u8,
}
