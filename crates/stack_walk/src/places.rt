// The places of a frame's registers.

ghost use Rattle.std.specs.Prelude.{◌≡◌, ◌≤◌, ◌-◌, ◌++◌, take, true, is_ok};
ghost use Rattle.table_model.specs.Frames.{words_from, outer_place, outer_places, window_places};
ghost use Rattle.stack_walk.specs.Callers.{saved_in, by_saved};

use ps_store::{PsObj, PsStore};
use table_model::Lack;
use table_read::kept_at;

/// The places of 32 registers, by number.
pub type Places = [Option<u32>; 32];

/// Sets the places from a number on to one word after another, the first at an address.
fn set_words(places: &mut Places, from: usize, at: u32)
    requires { from ≤ 32 }
    ensures { places.new ≡ take from places.old ++ words_from (32 - from) at }
{
    let mut word = at;
    for i in from..32 {
        places[i] = Some(word);
        word = word.wrapping_add(4);
    }
}

/// The 32 words from an address on, one for each register.
pub fn words_from(at: u32) -> Places
    ensures { result ≡ words_from 32 at }
{
    let mut places = [None; 32];
    set_words(&mut places, 0, at);
    places
}

/// The registers of the caller of a frame with a window: the globals of the frame, its ins as outs, and a window's words from
/// an address on.
#[tactic(auto, using(crate::proofs::Arrays::window_is))]
pub fn window_places(at: u32, inner: &Places) -> Places
    ensures { result ≡ window_places at inner.now }
{
    let mut places = *inner;
    places[8..16].copy_from_slice(&inner[24..32]);
    set_words(&mut places, 16, at);
    places
}

/// The place of a register outward of a frame with a base and places, if it is preserved.
fn outer_place(
    table: &PsStore,
    saved: &[PsObj],
    is_preserved: bool,
    base: u32,
    inner: &Places,
    register: usize,
) -> Result<Option<u32>, Lack>
    requires number { register ≤ 31 }
    requires read { is_ok (saved_in table.now saved.now) ≡ true }
    ensures { result ≡ by_saved (saved_in table.now saved.now) (outer_place is_preserved base inner.now register) }
{
    if !is_preserved {
        return Ok(None);
    }
    match kept_at(table, saved, base, register as u32)? {
        Some(at) => Ok(Some(at)),
        None => Ok(inner[register]),
    }
}

/// The places outward of a frame with a base and places: those of the preserved registers alone. All entries of `/saved` are
/// read first.
pub fn outer_places(
    table: &PsStore,
    saved: &[PsObj],
    preserved: &[bool; 32],
    base: u32,
    inner: &Places,
) -> Result<Places, Lack>
    ensures { result ≡ by_saved (saved_in table.now saved.now) (outer_places preserved.now 0 base inner.now) }
{
    let _ = kept_at(table, saved, 0, 0)?;
    let mut places = [None; 32];
    for register in 0..32 {
        places[register] = outer_place(table, saved, preserved[register], base, inner, register)?;
    }
    Ok(places)
}
