/// How often something stands: at least `min` times, and at most `max` times where there is such a number.
#[derive(Clone, Copy, Debug, PartialEq, Eq)]
pub struct Bounds {
    pub min: u32,
    pub max: Option<u32>,
}
