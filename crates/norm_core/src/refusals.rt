// Refusals, with their statuses and lines.
ghost use Rattle.std.specs.Prelude.{◌≡◌};
ghost use Rattle.norm_core.specs.Refusals.{fault_line, fault_status, limit_line, stop_line, stop_status, line_of, status_of};

use jacobian_pick::PickStop;
use lists::{List, NoMemory};
use singular_text::{ReadFault, Which};

/// Why there is no answer.
#[derive(Debug, Drop)]
pub enum Refusal {
    /// A read failed.
    ReadFault,
    /// There are more bytes than are read.
    LimitBytes,
    /// The bytes state no problem within the limits.
    Text(ReadFault),
    /// The problem has no denominator.
    Denominator(PickStop),
    /// Delta of a named point is above the limit; the line that names the point.
    Delta(List<u8>),
    /// No memory was to be had.
    Memory,
}

fn limit_line(which: Which) -> &'static [u8]
    ensures { result.now ≡ limit_line which }
{
    match which {
        Which::Variables => b"refused: limit variables\n",
        Which::Generators => b"refused: limit generators\n",
        Which::Points => b"refused: limit points\n",
        Which::Nesting => b"refused: limit nesting\n",
        Which::Digits => b"refused: limit digits\n",
        Which::Size => b"refused: limit size\n",
    }
}

fn fault_line(fault: ReadFault) -> &'static [u8]
    ensures { result.now ≡ fault_line fault }
{
    match fault {
        ReadFault::Syntax => b"refused: syntax\n",
        ReadFault::Characteristic => b"refused: characteristic\n",
        ReadFault::Limit(which) => limit_line(which),
        ReadFault::Memory => b"",
    }
}

fn fault_status(fault: ReadFault) -> u8
    ensures { result ≡ fault_status fault }
{
    match fault {
        ReadFault::Syntax => 3,
        ReadFault::Characteristic | ReadFault::Limit(_) => 4,
        ReadFault::Memory => 30,
    }
}

fn stop_line(stop: PickStop) -> &'static [u8]
    ensures { result.now ≡ stop_line stop }
{
    match stop {
        PickStop::Deep => b"refused: deep ideal\n",
        PickStop::Unit => b"refused: unit ideal\n",
        PickStop::DenominatorDeep => b"refused: deep denominator\n",
        PickStop::ZeroDivisor => b"refused: zero divisor\n",
        PickStop::Infinite => b"refused: infinite\n",
        PickStop::Wide => b"refused: wide\n",
        PickStop::NoDenominator => b"refused: no denominator\n",
        PickStop::Memory => b"",
    }
}

fn stop_status(stop: PickStop) -> u8
    ensures { result ≡ stop_status stop }
{
    match stop {
        PickStop::Unit => 5,
        PickStop::Deep | PickStop::DenominatorDeep => 6,
        PickStop::NoDenominator => 7,
        PickStop::ZeroDivisor => 8,
        PickStop::Infinite | PickStop::Wide => 9,
        PickStop::Memory => 30,
    }
}

impl Refusal {
    /// The line that tells the refusal; a failed read and want of memory have none.
    pub fn line(&self) -> &[u8]
        ensures { result.now ≡ line_of self.now }
    {
        match self {
            Refusal::ReadFault | Refusal::Memory => b"",
            Refusal::LimitBytes => b"refused: limit bytes\n",
            Refusal::Text(fault) => fault_line(*fault),
            Refusal::Denominator(stop) => stop_line(*stop),
            Refusal::Delta(line) => line.as_slice(),
        }
    }

    /// The status of a run that ends with the refusal.
    pub fn status(&self) -> u8
        ensures { result ≡ status_of self.now }
    {
        match self {
            Refusal::ReadFault => 20,
            Refusal::LimitBytes => 4,
            Refusal::Text(fault) => fault_status(*fault),
            Refusal::Denominator(stop) => stop_status(*stop),
            Refusal::Delta(_) => 10,
            Refusal::Memory => 30,
        }
    }
}

impl From<NoMemory> for Refusal {
    ghost use Rattle.std.specs.Prelude.{◌≡◌};
    ghost use Rattle.norm_core.specs.declared.refusals.Refusal.TheVariants.{Memory};

    ghost from_gives = { λ _ refusal. refusal ≡ Memory };

    fn from(_: NoMemory) -> Refusal {
        Refusal::Memory
    }
}

impl From<ReadFault> for Refusal {
    ghost use Rattle.std.specs.Prelude.{◌≡◌};
    ghost use Rattle.norm_core.specs.declared.refusals.Refusal.TheVariants.{Text};

    ghost from_gives = { λ fault refusal. refusal ≡ Text fault };

    fn from(fault: ReadFault) -> Refusal {
        Refusal::Text(fault)
    }
}

impl From<PickStop> for Refusal {
    ghost use Rattle.std.specs.Prelude.{◌≡◌};
    ghost use Rattle.norm_core.specs.declared.refusals.Refusal.TheVariants.{Denominator};

    ghost from_gives = { λ stop refusal. refusal ≡ Denominator stop };

    fn from(stop: PickStop) -> Refusal {
        Refusal::Denominator(stop)
    }
}
