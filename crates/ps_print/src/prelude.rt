// The prelude's text.

ghost use Rattle.std.specs.Prelude.{◌≡◌};
ghost use Rattle.ps_text.specs.Code.{render};
ghost use Rattle.ps_print.specs.Prelude.{prelude};

/// The prelude's text.
pub const PRELUDE: &[u8] =
    b"/digits [ (0) (1) (2) (3) (4) (5) (6) (7) (8) (9) ] def /Digits { dup 10 udivs dup 0 eq { pop } { Digits } ifelse 10 urem digits exch get Put } def /Signed { dup 0 lt { (-) Put 0 exch usub } if Digits } def /ShowInt { pop /w fetch Signed 1 sub } def /ShowUnsigned { pop /w fetch Digits 1 sub } def /ShowChar { pop /c fetch PutChar 1 sub } def /ShowPointer { 3 1 roll /p fetch dup PutPointer exch /to get /kind get /char eq { dup charrun dup 0 eq { pop pop } { ( ) Put /d 3 1 roll PutChars } ifelse } { pop } ifelse 1 sub } def /Show { dup /kind get dup /array eq { pop ShowArray } { dup /struct eq { pop ShowStruct } { dup /int eq { pop ShowInt } { dup /unsigned eq { pop ShowUnsigned } { /char eq { ShowChar } { ShowPointer } ifelse } ifelse } ifelse } ifelse } ifelse } def /Items { 3 index 0 eq { pop pop pop pop pop } { 4 index Put 5 index 0 eq { (...) Put pop pop pop pop pop } { 6 -1 roll 3 index 3 index 3 index Show 6 1 roll 5 -1 roll pop (, ) 5 1 roll 4 -1 roll 1 sub 4 1 roll dup /size get 3 -1 roll uadd exch Items } ifelse } ifelse } def /ShowArray { dup /to get /kind get /char eq { /count get PutChars 1 sub } { ({) Put () 4 1 roll dup /count get 4 1 roll /to get Items (}) Put } ifelse } def /Members { 2 index 4 index length eq { pop pop pop pop pop } { 4 index Put 5 index 0 eq { (...) Put pop pop pop pop pop } { 6 -1 roll 4 index 4 index get 3 index 3 index 2 index 1 get uadd 3 -1 roll 2 get Show 6 1 roll 5 -1 roll pop (, ) 5 1 roll 3 -1 roll 1 add 3 1 roll Members } ifelse } ifelse } def /ShowStruct { ({) Put /members get 3 1 roll () 4 1 roll 0 3 1 roll Members (}) Put } def /Print { 1000 4 1 roll Show pop } def /PrintInt /Print load def /PrintUnsigned /Print load def /PrintChar /Print load def /PrintPointer /Print load def /PrintArray /Print load def /PrintStruct /Print load def ";

/// The prelude's text is that of the term.
pub fn prelude_text() -> &'static [u8]
    ensures { result.now ≡ render prelude }
{
    PRELUDE
}
