// A gateway with its session.
use gw_core::Gateway;
use rc_http::Feeder;
use std::alloc::Global;

/// A gateway, and the reader of its session while one is there.
#[derive(Drop)]
pub struct Node {
    pub alloc: Global,
    pub gateway: Gateway,
    pub session: Option<Feeder>,
}
