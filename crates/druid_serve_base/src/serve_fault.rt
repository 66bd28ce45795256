//! Why a cluster is not served, as it is reported.
ghost use Rattle.std.specs.Prelude.{◌≡◌, Some};
ghost use Rattle.druid_serve_base.specs.Ends.{of_cluster, of_config, fault_text};

use crate::ClusterFault;
use druid_serve_config::ConfigFault;
use std::error::Error;
use std::fmt;

/// Why a cluster is not served.
#[derive(Clone, Copy, Debug, PartialEq, Eq, Drop)]
pub enum ServeFault {
    /// The config is refused.
    BadConfig,
    /// A segment file or an incarnation file is refused at the start.
    BadFolder,
    /// A device failed, or memory ran out.
    Device,
}

impl fmt::Display for ServeFault {
    ghost output = { λ fault. Some (fault_text fault) };

    fn fmt<W: fmt::Write>(&self, f: &mut fmt::Formatter<W>) -> fmt::Result {
        f.write_str(match self {
            ServeFault::BadConfig => "bad config",
            ServeFault::BadFolder => "bad folder",
            ServeFault::Device => "device",
        })
    }
}

impl Error for ServeFault {}

impl From<ConfigFault> for ServeFault {
    ghost from_gives = { λ fault reported. reported ≡ of_config fault };

    fn from(fault: ConfigFault) -> ServeFault {
        match fault {
            ConfigFault::Refused => ServeFault::BadConfig,
            ConfigFault::Memory => ServeFault::Device,
        }
    }
}

impl From<ClusterFault> for ServeFault {
    ghost from_gives = { λ fault reported. reported ≡ of_cluster fault };

    fn from(fault: ClusterFault) -> ServeFault {
        match fault {
            ClusterFault::BadFolder => ServeFault::BadFolder,
            ClusterFault::Device => ServeFault::Device,
        }
    }
}
