// Files that are written.
ghost use Rattle.std.specs.Prelude.{◌≡◌, OnOk, OnErr};
ghost use Rattle.ldb_edge.specs.Count.{CountsFailure};
ghost use Rattle.cc_call.specs.Outcome.{with_file, IsWrittenPart};

use ldb_edge::{Failed, Files};

/// Makes a file of these bytes.
pub fn write_file<F: Files>(files: &mut F, name: &str, bytes: &[u8]) -> Result<(), Failed>
    ensures ok { OnOk result (F.held files.new ≡ with_file name.now bytes.now (F.held files.old)) }
    ensures err { OnErr result (IsWrittenPart name.now bytes.now (F.held files.old) (F.held files.new)) }
    ensures read_faults { F.read_faults files.new ≡ F.read_faults files.old }
    ensures cause { CountsFailure (F.write_faults files.old) (F.write_faults files.new) result }
{
    files.create(name)?;
    let mut done = 0;
    while done < bytes.len() {
        match files.append(name, &bytes[done..]) {
            Ok(count) => {
                if count == 0 {
                    return Err(Failed);
                }
                done += count;
            }
            Err(_) => return Err(Failed),
        }
    }
    Ok(())
}
