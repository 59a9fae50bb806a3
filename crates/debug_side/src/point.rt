// What is kept of one side.

ghost use Rattle.std.specs.Prelude.{◌≡◌};
ghost use Rattle.std.specs.List.{list_all};
ghost use Rattle.debug_side.specs.Meant.{point_at, stands_in_text};

use crate::event::Event;
use machine_state::DATA;
use table_points::Point;

/// What a debugger knows of a machine: its target byte, and the address of its context block.
#[derive(Clone, Copy)]
pub struct MachineKind {
    pub target: u8,
    pub context: u32,
}

/// What a debugger keeps of a side: the points with a breakpoint, those at which a step has put the break word too and where it
/// still stands, whether such words may stay behind their event, the address of the stop at which the side stands, if it does,
/// and the event that it keeps while it isn't resumed.
#[derive(Drop)]
pub struct SideRow {
    pub breaks: Vec<Point>,
    pub step_words: Vec<Point>,
    pub words_stay: bool,
    pub stands_at: Option<u32>,
    pub kept: Option<Event>,
}

/// The first of some points at an address.
pub fn point_at(points: &[Point], at: u32) -> Option<Point>
    ensures { result ≡ point_at points.now at }
{
    for point in points {
        if point.at == at {
            return Some(*point);
        }
    }
    None
}

/// Whether a point is a word of the text, which no store of a program changes. Two of them are one or don't overlap.
fn stands_in_text(point: Point) -> bool
    ensures { result ≡ stands_in_text point }
{
    point.at % 4 == 0 && point.at < DATA
}

/// Whether the words of a step at these points may stay where they are until someone looks: the program can't change them, so
/// taking them away behind its event and putting them before the next step would leave the same.
pub fn may_stay(points: &[Point]) -> bool
    ensures { result ≡ list_all stands_in_text points.now }
{
    points.iter().all(|point| stands_in_text(*point))
}
