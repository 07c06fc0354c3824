use metric_laws::Point;

/// A new page with its routing point and covering radius.
#[derive(Drop)]
pub struct Stem {
    pub page: u32,
    pub point: Point,
    pub radius: u64,
}

/// What a node has grown to: one new page, or two halves.
#[derive(Drop)]
pub enum Grew {
    One(u32),
    Two(Stem, Stem),
}
