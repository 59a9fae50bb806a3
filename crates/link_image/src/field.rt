// Words that hold an address or a part of it.

ghost use Rattle.std.specs.Prelude.{◌≡◌};
ghost use Rattle.obj_placed.specs.Fields.{mips_word, sparc_word, patched_word, order_of};

use ldb_words::Order;
use machine_state::MIPS;
use obj_file::Form;

/// A MIPS word with an address.
fn mips_word(form: Form, address: u32, word: u32) -> u32
    ensures { result ≡ mips_word form address word }
{
    match form {
        Form::High => word / 65536 * 65536 + address / 65536,
        Form::Low => word / 65536 * 65536 + address % 65536,
        Form::Jump => word / 67108864 * 67108864 + address / 4 % 67108864,
        Form::Word => address,
    }
}

/// A SPARC word, which stands at an address, with an address.
fn sparc_word(form: Form, stands: u32, address: u32, word: u32) -> u32
    ensures { result ≡ sparc_word form stands address word }
{
    match form {
        Form::High => word / 4194304 * 4194304 + address / 1024,
        Form::Low => word / 1024 * 1024 + address % 1024,
        Form::Jump => word / 1073741824 * 1073741824 + address.wrapping_sub(stands) / 4,
        Form::Word => address,
    }
}

/// A word, which stands at an address, with an address.
#[tactic(auto, unfolding(obj_placed::specs::Fields::patched_word))]
pub fn patched_word(target: u8, form: Form, stands: u32, address: u32, word: u32) -> u32
    ensures { result ≡ patched_word target form stands address word }
{
    if target == MIPS {
        mips_word(form, address, word)
    } else {
        sparc_word(form, stands, address, word)
    }
}

/// The byte order of a target.
pub fn order_of(target: u8) -> Order
    ensures { result ≡ order_of target }
{
    if target == MIPS {
        Order::Little
    } else {
        Order::Big
    }
}
