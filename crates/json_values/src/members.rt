// The members that each object may have, and those that it is to have.
ghost use Rattle.serde_json.specs.View.{view};
ghost use Rattle.ikl_base.specs.Answers.{Gives};
ghost use Rattle.json_values.specs.Members.{range_shape, selector_shape, counts_shape, limits_shape, soft_shape, suite_shape, processing_shape, policy_shape, spd_entry_shape, encryption_shape, tunnel_shape, config_shape, sad_entry_shape, list_input_shape, tunnel_input_shape};

use crate::fault::Fault;
use crate::shapes::has_shape;
use ikl_base::OrMemory;
use serde_json::Value;
use std::alloc::Global;

/// The members of a range of ports.
#[tactic(auto, unfolding(crate::specs::Members::range_shape))]
pub fn is_range(alloc: Global, value: &Value) -> Result<(), OrMemory<Fault>>
    ensures { Gives result (range_shape (view value.now)) }
{
    has_shape(alloc, &["end", "start"], &["end", "start"], value)
}

/// The members of `traffic-selector`.
#[tactic(auto, unfolding(crate::specs::Members::selector_shape))]
pub fn is_selector(alloc: Global, value: &Value) -> Result<(), OrMemory<Fault>>
    ensures { Gives result (selector_shape (view value.now)) }
{
    has_shape(
        alloc,
        &[
            "inner-protocol",
            "local-ports",
            "local-prefix",
            "remote-ports",
            "remote-prefix",
        ],
        &["local-prefix", "remote-prefix"],
        value,
    )
}

/// The members of `sa-lifetime-current`.
#[tactic(auto, unfolding(crate::specs::Members::counts_shape))]
pub fn is_counts(alloc: Global, value: &Value) -> Result<(), OrMemory<Fault>>
    ensures { Gives result (counts_shape (view value.now)) }
{
    has_shape(
        alloc,
        &["bytes", "idle", "packets", "time"],
        &["bytes", "idle", "packets", "time"],
        value,
    )
}

/// The members of limits on the use of a half, as `sa-lifetime-hard`.
#[tactic(auto, unfolding(crate::specs::Members::limits_shape))]
pub fn is_limits(alloc: Global, value: &Value) -> Result<(), OrMemory<Fault>>
    ensures { Gives result (limits_shape (view value.now)) }
{
    has_shape(alloc, &["bytes", "idle", "packets", "time"], &[], value)
}

/// The members of `sa-lifetime-soft`.
#[tactic(auto, unfolding(crate::specs::Members::soft_shape))]
pub fn is_soft(alloc: Global, value: &Value) -> Result<(), OrMemory<Fault>>
    ensures { Gives result (soft_shape (view value.now)) }
{
    has_shape(
        alloc,
        &["action", "bytes", "idle", "packets", "time"],
        &[],
        value,
    )
}

/// The members of `ipsec-sa-cfg`.
#[tactic(auto, unfolding(crate::specs::Members::suite_shape))]
pub fn is_suite(alloc: Global, value: &Value) -> Result<(), OrMemory<Fault>>
    ensures { Gives result (suite_shape (view value.now)) }
{
    has_shape(
        alloc,
        &[
            "ext-seq-num",
            "mode",
            "pfp-flag",
            "protocol-parameters",
            "seq-overflow",
            "stateful-frag-check",
        ],
        &[],
        value,
    )
}

/// The members of `processing-info`.
#[tactic(auto, unfolding(crate::specs::Members::processing_shape))]
pub fn is_processing(alloc: Global, value: &Value) -> Result<(), OrMemory<Fault>>
    ensures { Gives result (processing_shape (view value.now)) }
{
    has_shape(alloc, &["action", "ipsec-sa-cfg"], &[], value)
}

/// The members of `ipsec-policy-config`.
#[tactic(auto, unfolding(crate::specs::Members::policy_shape))]
pub fn is_policy(alloc: Global, value: &Value) -> Result<(), OrMemory<Fault>>
    ensures { Gives result (policy_shape (view value.now)) }
{
    has_shape(
        alloc,
        &[
            "anti-replay-window-size",
            "processing-info",
            "traffic-selector",
        ],
        &["traffic-selector"],
        value,
    )
}

/// The members of an item of `spd-entry`.
#[tactic(auto, unfolding(crate::specs::Members::spd_entry_shape))]
pub fn is_spd_entry(alloc: Global, value: &Value) -> Result<(), OrMemory<Fault>>
    ensures { Gives result (spd_entry_shape (view value.now)) }
{
    has_shape(
        alloc,
        &["direction", "ipsec-policy-config", "name", "reqid"],
        &["direction", "ipsec-policy-config", "name"],
        value,
    )
}

/// The members of `encryption`.
#[tactic(auto, unfolding(crate::specs::Members::encryption_shape))]
pub fn is_encryption(alloc: Global, value: &Value) -> Result<(), OrMemory<Fault>>
    ensures { Gives result (encryption_shape (view value.now)) }
{
    has_shape(alloc, &["encryption-algorithm", "key"], &["key"], value)
}

/// The members of `tunnel`.
#[tactic(auto, unfolding(crate::specs::Members::tunnel_shape))]
pub fn is_tunnel(alloc: Global, value: &Value) -> Result<(), OrMemory<Fault>>
    ensures { Gives result (tunnel_shape (view value.now)) }
{
    has_shape(
        alloc,
        &["df-bit", "local", "remote"],
        &["local", "remote"],
        value,
    )
}

/// The members of `ipsec-sa-config`.
#[tactic(auto, unfolding(crate::specs::Members::config_shape))]
pub fn is_config(alloc: Global, value: &Value) -> Result<(), OrMemory<Fault>>
    ensures { Gives result (config_shape (view value.now)) }
{
    has_shape(
        alloc,
        &[
            "anti-replay-window-size",
            "esp-sa",
            "ext-seq-num",
            "mode",
            "protocol-parameters",
            "sa-lifetime-hard",
            "sa-lifetime-soft",
            "seq-overflow",
            "spi",
            "traffic-selector",
            "tunnel",
        ],
        &["esp-sa", "spi", "traffic-selector", "tunnel"],
        value,
    )
}

/// The members of an item of `sad-entry`.
#[tactic(auto, unfolding(crate::specs::Members::sad_entry_shape))]
pub fn is_sad_entry(alloc: Global, value: &Value) -> Result<(), OrMemory<Fault>>
    ensures { Gives result (sad_entry_shape (view value.now)) }
{
    has_shape(
        alloc,
        &["ipsec-sa-config", "name", "reqid"],
        &["ipsec-sa-config", "name"],
        value,
    )
}

/// The members of the input of a list of policies.
#[tactic(auto, unfolding(crate::specs::Members::list_input_shape))]
pub fn is_list_input(alloc: Global, value: &Value) -> Result<(), OrMemory<Fault>>
    ensures { Gives result (list_input_shape (view value.now)) }
{
    has_shape(
        alloc,
        &["gateway", "spd-entry"],
        &["gateway", "spd-entry"],
        value,
    )
}

/// The members of the input of a tunnel.
#[tactic(auto, unfolding(crate::specs::Members::tunnel_input_shape))]
pub fn is_tunnel_input(alloc: Global, value: &Value) -> Result<(), OrMemory<Fault>>
    ensures { Gives result (tunnel_input_shape (view value.now)) }
{
    has_shape(
        alloc,
        &[
            "hard",
            "soft",
            "anti-replay-window-size",
            "first",
            "first-prefix",
            "mode",
            "reqid",
            "second",
            "second-prefix",
        ],
        &[
            "anti-replay-window-size",
            "first",
            "first-prefix",
            "mode",
            "reqid",
            "second",
            "second-prefix",
        ],
        value,
    )
}
