// Where the registers of the windows stand among all.

ghost use Rattle.std.specs.Prelude.{◌≡◌, ◌<◌, ◌+◌, ◌≤◌};
ghost use Rattle.sparc_isa.specs.Windows.{window_below, window_above, window_place, place_of};

/// How many words the globals and all windows are.
pub const REGISTERS: usize = 136;

/// The window that SAVE goes to.
#[inline(always)]
pub fn window_below(window: u8) -> u8
    requires { window < 8 }
    ensures value { result ≡ window_below window }
    ensures in_range { result < 8 }
{
    (window + 7) % 8
}

/// The window that RESTORE goes to.
#[inline(always)]
pub fn window_above(window: u8) -> u8
    requires { window < 8 }
    ensures value { result ≡ window_above window }
    ensures in_range { result < 8 }
{
    (window + 1) % 8
}

/// Where the locals and ins of a window stand.
#[inline(always)]
pub fn window_place(window: u8) -> usize
    requires { window < 8 }
    ensures value { result ≡ window_place window }
    ensures in_range { result + 16 ≤ REGISTERS }
{
    8 + 16 * usize::from(window)
}

/// The place of a window's register among all.
#[tactic(auto, unfolding(sparc_isa::specs::Windows::place_of))]
#[inline(always)]
pub fn place_of(window: u8, number: u8) -> usize
    requires window_fits { window < 8 }
    requires number_fits { number < 32 }
    ensures value { result ≡ place_of window number }
    ensures in_range { result < REGISTERS }
    ensures after_zero { 0 < number → 0 < result }
{
    let (window, number) = (usize::from(window), usize::from(number));
    if number < 8 {
        number
    } else {
        8 + (16 * window + number + 112) % 128
    }
}
