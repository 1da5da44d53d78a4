// A channel of the program.
ghost use Rattle.std.specs.Prelude.{◌≡◌, IfOk};
ghost use Rattle.std.specs.Arc.{arc_value};

use crate::{NoMemory, Path, Shared};
use std::cmp::Ordering;
use std::marker::Model;
use std::sync::Arc;

/// A channel: its home, which is the path of the process that made it; a serial number there; and its printed
/// name, as a number in the program's list of names. Home and serial alone decide whether two channels are equal
/// and how they are ordered.
#[derive(Drop)]
pub struct Chan {
    home: Shared<Path>,
    serial: u32,
    name: u32,
}

impl Model for Chan {
    ghost use Rattle.shim_base.specs.Paths.{NamedChannel};

    ghost Value = { NamedChannel };

    ghost view = { λ chan. record { channel = record { home = chan.home; serial = chan.serial }; name = chan.name } };
}

impl Chan {
    pub fn new(home: Arc<Path>, serial: u32, name: u32) -> Chan
        ensures { result ≡ record { channel = record { home = arc_value home; serial = serial }; name = name } }
    {
        Chan {
            home: Shared::from(home),
            serial,
            name,
        }
    }

    /// The path of the process that made it.
    pub fn home(&self) -> &Path
        ensures { result.now ≡ self.now.channel.home }
    {
        &self.home
    }

    /// Its number among the channels of its home, counted from 0.
    pub fn serial(&self) -> u32
        ensures { result ≡ self.now.channel.serial }
    {
        self.serial
    }

    /// The number of its printed name.
    pub fn name(&self) -> u32
        ensures { result ≡ self.now.name }
    {
        self.name
    }

    /// Another value of this channel, with its printed name.
    pub fn copy(&self) -> Result<Chan, NoMemory>
        ensures { IfOk result (λ chan. chan ≡ self.now) }
    {
        Ok(Chan {
            home: self.home.share()?,
            serial: self.serial,
            name: self.name,
        })
    }
}

impl PartialEq for Chan {
    ghost use Rattle.shim_base.specs.Paths.{same_channel};
    ghost use Rattle.shim_base.specs.PathLaws.{same_channel_laws};

    ghost eq = { λ a b. same_channel a.channel b.channel };

    ghost laws = { same_channel_laws };

    fn eq(&self, other: &Chan) -> bool {
        // the serial first, since it distinguishes most channels
        self.serial == other.serial && *self.home == *other.home
    }
}

impl Eq for Chan {
    ghost use Rattle.shim_base.specs.PathLaws.{same_channel_equivalence};

    ghost laws = { same_channel_equivalence };
}

impl PartialOrd for Chan {
    ghost use Rattle.std.specs.Prelude.{Some};
    ghost use Rattle.shim_base.specs.Paths.{channel_order};
    ghost use Rattle.shim_base.specs.PathLaws.{channel_order_partial};

    ghost partial_cmp = { λ a b. Some (channel_order a.channel b.channel) };

    ghost laws = { channel_order_partial };

    fn partial_cmp(&self, other: &Chan) -> Option<Ordering> {
        Some(self.cmp(other))
    }
}

impl Ord for Chan {
    ghost use Rattle.shim_base.specs.Paths.{channel_order};
    ghost use Rattle.shim_base.specs.PathLaws.{named_order_total, same_channel_ties};
    ghost use Rattle.std.specs.Prelude.{refl};

    ghost cmp = { λ a b. channel_order a.channel b.channel };

    ghost total = { named_order_total };

    ghost matches_partial_cmp = { λ a b. refl };

    ghost matches_eq = { same_channel_ties };

    fn cmp(&self, other: &Chan) -> Ordering {
        self.home()
            .cmp(other.home())
            .then(self.serial.cmp(&other.serial))
    }
}
