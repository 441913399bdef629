//! Events that are answered at the end of their phase.

use super::line_list::Lines;
use super::origin::Spot;
use event_world::Event;
use shape_spec::FnSet;

/// A value, an assert or a theorem that waits for its answer, with the functions whose calls are kept at its place. The
/// lines of the events behind it, up to the next job, are known already.
#[derive(Drop)]
pub struct Job {
    pub spot: Spot,
    pub event: Event,
    pub memoized: FnSet,
    pub behind: Lines,
}
