// Packet-loss concealment (plc.rs).
#![tactic(auto)]

pub mod conceal;
pub mod update;
