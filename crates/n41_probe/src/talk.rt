use n41_link::{Ear, Inflow, Mouth, Outflow};

/// The two ends of a connection.
#[derive(Drop)]
pub struct Talk<I: Inflow, O: Outflow> {
    pub ear: Ear<I>,
    pub mouth: Mouth<O>,
}
