// Sources to an image and its table.
ghost use Rattle.std.specs.Prelude.{◌≡◌, length, map};
ghost use Rattle.ldb_cc.specs.Built.{Builds};
ghost use Rattle.ldb_cc.specs.Scanning.{items_of};

use crate::accepted::programs_of_sources;
use crate::aim::Aim;
use crate::building::build;
use crate::fault::BuildFault;
use crate::front::program_of;
use crate::table::table_of;
use ldb_words::Text;
use obj_file::Image;
use std::alloc::Global;

/// What is built: an image, and the text of its table.
#[derive(Drop)]
pub struct Built {
    pub image: Image,
    pub table: Text,
}

/// Compiles sources with these names, one text for each, or tells the first cause why they are refused.
pub fn compile(
    alloc: Global,
    aim: Aim,
    names: &[Text],
    texts: &[Vec<u8>],
) -> Result<Built, BuildFault>
    requires { length names.now ≡ length texts.now }
    ensures { Builds aim names.now (map items_of texts.now) result }
{
    programs_of_sources();
    let program = program_of(alloc, names, texts)?;
    let (image, rows) = build(alloc, aim, &program)?;
    let table = table_of(alloc, aim, &program, rows)?;
    Ok(Built { image, table })
}
