//! Facts that hold of all configs.
ghost use Rattle.std.specs.Prelude.{◌≡◌, ◌↔◌, ℕ, List, Some, IsTrue, true, false};
ghost use Rattle.serde_json.specs.Data.{Data};
ghost use Rattle.druid_serve_config.specs.Addresses.{is_address, NamesPort, NamesHostPort};
ghost use Rattle.druid_serve_config.specs.Configs.{Reported, config_at, IsWithinLimits};

/// What a config tells is within its limits: 1 to 64 nodes and brokers, no two nodes of one name, 1 to 16 workers each, 1 to
/// 1,000 changes kept, at most 1,000,000 connections and turns, rests and a patience of 1 to 3,600,000 milliseconds, each query an object and to a
/// broker that is there; addresses of this machine alone where the config has no `"network": true`; and a cluster that does not end
/// goes on with its turns.
pub fn configs_are_within_limits()
    ensures { (d : Data) (reported : Reported) → config_at d ≡ Some reported → IsWithinLimits reported }
{}

/// An address of a config without `"network": true` is `127.0.0.1:` and then the decimal digits of a port, 1 to 65,535.
pub fn addresses_name_ports()
    ensures { (text : List ℕ) → IsTrue (is_address false text) ↔ NamesPort text }
{}

/// An address of a config with `"network": true` is four numbers up to 255 in decimal digits, dots between them, then a colon and
/// the decimal digits of a port, 1 to 65,535.
pub fn addresses_name_hosts()
    ensures { (text : List ℕ) → IsTrue (is_address true text) ↔ NamesHostPort text }
{}
