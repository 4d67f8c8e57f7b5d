use crate::inlet::Inlet;
use crate::outlet::Outlet;
use n41_link::{Inflow, Outflow};
use n41_results::Parcel;

/// A connection: its number, and its two ends.
#[derive(Drop)]
pub struct Wire<I: Inflow, O: Outflow, P: Parcel> {
    pub conn: u64,
    pub inlet: Inlet<I>,
    pub outlet: Outlet<O, P>,
}
