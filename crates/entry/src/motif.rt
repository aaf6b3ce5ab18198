use crate::body::Body;
use crate::name::Name;

// A short run of glyphs, or, with no body, something that only marks have stretches of.
#[derive(Clone, Copy)]
pub struct Motif {
    pub name: Name,
    pub weight: u16,
    pub body: Option<Body>,
}
