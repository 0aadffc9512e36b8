// A sheet in either place.
use needs::Kind;
use sheets::{BaySheet, RoadSheet};

#[derive(Drop)]
pub(crate) enum Sheet<'a, K: Kind> {
    Bay(BaySheet<'a, K>),
    Road(RoadSheet<'a, K>),
}
