// The words that a table begins with.
ghost use Rattle.std.specs.Prelude.{◌≡◌};
ghost use Rattle.ps_text.specs.Code.{render};
ghost use Rattle.ps_emit.specs.Words.{words};

/// The words that make a table's dictionaries of their parts.
const WORDS: &[u8] =
    b"/int 3 dict dup /kind /int put dup /size 4 put dup /printer /PrintInt load put def /unsigned 3 dict dup /kind /unsigned put dup /size 4 put dup /printer /PrintUnsigned load put def /char 3 dict dup /kind /char put dup /size 1 put dup /printer /PrintChar load put def /PointerType 3 dict dup /kind /pointer put dup /size 4 put dup /printer /PrintPointer load put def /ArrayType 2 dict dup /kind /array put dup /printer /PrintArray load put def /StructType 2 dict dup /kind /struct put dup /printer /PrintStruct load put def /PointerTo { PointerType 4 dict copy dup /to 4 -1 roll put } def /ArrayOf { 2 copy exch /size get mul ArrayType 5 dict copy dup /size 4 -1 roll put dup /count 4 -1 roll put dup /to 4 -1 roll put } def /NewStruct { StructType 5 dict copy dup /size 4 -1 roll put dup /tag 4 -1 roll put } def /Variable 2 dict dup /kind /variable put dup /uplink null put def /NewString { Variable 6 dict copy dup /type 4 -1 roll put dup /where 4 -1 roll put dup /label 4 -1 roll put } def /NewObject { NewString dup /name 4 -1 roll put } def /ObjectSymbol { 6 dict copy dup /uplink 4 -1 roll put } def /NewSymbol { Variable 6 dict copy dup /uplink 4 -1 roll put dup /where 4 -1 roll put dup /type 4 -1 roll put dup /name 3 index put dup /label 4 -1 roll put } def /FunctionSymbol { NewSymbol dup /kind /function put } def /NewPoint { 4 dict dup /symbols 4 -1 roll put dup /address 4 -1 roll put dup /column 4 -1 roll put dup /line 4 -1 roll put } def /NewFunction { 7 dict dup /points 4 -1 roll put dup /saved 4 -1 roll put dup /frame 4 -1 roll put dup /end 4 -1 roll put dup /entry 4 -1 roll put dup /static 4 -1 roll put dup /name 4 -1 roll put } def /NewUnit { 2 dict dup /functions 4 -1 roll put dup /file 4 -1 roll put } def ";

/// The words' text is that of the term.
pub fn words_text() -> &'static [u8]
    ensures { result.now ≡ render words }
{
    WORDS
}
