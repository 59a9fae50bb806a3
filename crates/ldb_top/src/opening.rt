// Machines and their tables: what a session stands on.
ghost use Rattle.std.specs.Prelude.{◌≡◌, ◌≤◌, ◌+◌, ◌⊎◌, ℕ, List, [], length, map, string_bytes, IfErr, IfOk, OnOk, MatchResult, Some, Ok, Err, option_map};
ghost use Rattle.ldb_edge.specs.Known.{FileMap};
ghost use Rattle.table_run.specs.Tables.{IsTableOf};
ghost use Rattle.ldb_cc.specs.Scanning.{items_of};
ghost use Rattle.ldb_cc.specs.Sources.{IsCause};
ghost use Rattle.ldb_top.specs.Lines.{table_word};
ghost use Rattle.ldb_top.specs.Names.{AreSourceNames, aim_in, names_in_debug, names_in_go};
ghost use Rattle.ldb_top.specs.Stops.{IsLoadStop, IsGoStop, IsDebugStop, IsOpenStop};
ghost use Rattle.ldb_top.specs.Why.{IsTableStop, IsImageTold, IsBuildWhy, BuildsFrom, AddsSide, AddsCompiled, AddsFor, IsCompiledFor, LoadsFrom, Opens, OverOne, OverBoth};
ghost use Rattle.ldb_top.specs.Words.{Debug, Go};

use crate::reading::{line_with, read_file, read_input, read_sources};
use crate::status::Stop;
use crate::words::{Aims, DebugRequest, GoRequest};
use cc_call::{is_refusal, names_of, refused_line};
use compiled_tables::compiled_tables_come;
use ldb_cc::{Aim, BuildFault, Built, compile};
use ldb_edge::Files;
use ldb_words::Text;
use near_link::{Entry, NearLink, near_nubs_fit, schedule_of};
use obj_file::{Image, ImageFault, read_image};
use ps_store::PsStore;
use session::Session;
use std::alloc::Global;
use table_run::{TableFault, run_table};

/// The most bytes of an image: its header, text and data.
const MOST_IMAGE: usize = 17_825_812;

/// The most bytes of a table.
const MOST_TABLE: usize = 16_777_216;

/// The images of one target or two, and the tables that were run for them.
#[derive(Drop)]
struct Sides {
    images: Vec<Image>,
    tables: Vec<PsStore>,
}

/// The word that tells why a table gives nothing to begin with; none where memory was wanting.
fn table_word(fault: TableFault) -> Option<&'static str>
    ensures { option_map (λ word. word.now) result ≡ table_word fault }
{
    match fault {
        TableFault::Raised(error) => Some(error.name()),
        TableFault::Spent => Some("spent"),
        TableFault::Shape => Some("shape"),
        TableFault::NoMemory => None,
    }
}

/// What is told of a table that can't be used.
fn bad_table(alloc: Global, fault: TableFault) -> Stop
    ensures stop { IsLoadStop result }
    ensures told { (text : List ℕ) (target : ℕ) → IsTableOf text target (Err fault) → IsTableStop target text result }
{
    match table_word(fault) {
        None => Stop::NoMemory,
        Some(why) => match line_with(alloc, "badfile table ", why) {
            Ok(line) => Stop::Bad(line),
            Err(_) => Stop::NoMemory,
        },
    }
}

/// What is told of an image that is none.
fn bad_image(alloc: Global, fault: ImageFault) -> Stop
    ensures stop { IsLoadStop result }
    ensures told { IsImageTold fault result }
{
    match fault {
        ImageFault::NoMemory => Stop::NoMemory,
        ImageFault::BadImage { at } => match format!(in alloc; "badfile image at {at}\n") {
            Ok(line) => Stop::Bad(Text::from_vec(line.into_bytes())),
            Err(_) => Stop::NoMemory,
        },
    }
}

/// What is told of sources that are refused.
fn refusal(alloc: Global, names: &[Text], fault: &BuildFault) -> Stop
    ensures { (texts : List (List ℕ)) → IsCause texts fault.now → IsBuildWhy names.now texts result }
{
    if !is_refusal(fault) {
        return Stop::NoMemory;
    }
    match refused_line(alloc, names, fault) {
        Ok(line) => Stop::Refused(line),
        Err(_) => Stop::NoMemory,
    }
}

impl Sides {
    fn new(alloc: Global) -> Sides
        ensures images { result.images.items ≡ [] }
        ensures tables { result.tables.items ≡ [] }
    {
        Sides {
            images: Vec::new(alloc),
            tables: Vec::new(alloc),
        }
    }

    /// Runs the table of an image, and keeps both.
    fn add(&mut self, alloc: Global, image: Image, table: &[u8]) -> Result<(), Stop>
        ensures count { OnOk result (length self.new.images.items ≡ length self.old.images.items + 1) }
        ensures stop { IfErr result IsLoadStop }
        ensures told { IfErr result (IsTableStop image.target table.now) }
        ensures adds { OnOk result (AddsSide image table.now self.old.images.items self.new.images.items self.old.tables.items self.new.tables.items) }
    {
        let store = match run_table(alloc, table, image.target()) {
            Ok(store) => store,
            Err(fault) => return Err(bad_table(alloc, fault)),
        };
        self.images.push(image)?;
        self.tables.push(store)?;
        Ok(())
    }

    /// Compiles sources for a target.
    fn compile(
        &mut self,
        alloc: Global,
        aim: Aim,
        names: &[Text],
        texts: &[Vec<u8>],
    ) -> Result<(), Stop>
        requires one_each { length names.now ≡ length texts.now }
        requires named { AreSourceNames names.now }
        ensures count { OnOk result (length self.new.images.items ≡ length self.old.images.items + 1) }
        ensures builds { BuildsFrom names.now (map items_of texts.now) result }
        ensures adds { OnOk result (AddsCompiled aim names.now (map items_of texts.now) self.old.images.items self.new.images.items self.old.tables.items self.new.tables.items) }
    {
        match compile(alloc, aim, names, texts) {
            Ok(built) => {
                let Built { image, table } = built;
                compiled_tables_come();
                self.add(alloc, image, table.as_bytes())
            }
            Err(fault) => Err(refusal(alloc, names, &fault)),
        }
    }

    /// Begins a session over a link to the machines of the images, with this input.
    fn start(
        self,
        alloc: Global,
        schedule: Vec<Entry>,
        input: &[u8],
        raw: bool,
    ) -> Result<Session<NearLink>, Stop>
        requires { (length self.images.items ≡ 1) ⊎ (length self.images.items ≡ 2) }
        ensures stop { IfErr result (λ stop. stop ≡ Stop.NoMemory) }
        ensures over { length input.now ≤ 16777216 → IfOk result (OverOne raw input.now self.images.items self.tables.items) }
        ensures over_both { length input.now ≤ 16777216 → IfOk result (OverBoth raw input.now self.images.items self.tables.items) }
    {
        near_nubs_fit();
        let link = NearLink::new(alloc, &self.images, schedule)?;
        match Session::start(alloc, link, self.tables, input, raw) {
            Ok(session) => Ok(session),
            Err(_) => Err(Stop::NoMemory),
        }
    }
}

/// Compiles sources for one target or both.
fn sides_of(alloc: Global, aims: Aims, names: &[Text], texts: &[Vec<u8>]) -> Result<Sides, Stop>
    requires one_each { length names.now ≡ length texts.now }
    requires named { AreSourceNames names.now }
    ensures count { IfOk result (λ sides. (length sides.images.items ≡ 1) ⊎ (length sides.images.items ≡ 2)) }
    ensures builds { BuildsFrom names.now (map items_of texts.now) result }
    ensures adds { IfOk result (λ sides. AddsFor (aim_in aims) names.now (map items_of texts.now) [] sides.images.items [] sides.tables.items) }
{
    let mut sides = Sides::new(alloc);
    match aims {
        Aims::One(aim) => sides.compile(alloc, aim, names, texts)?,
        Aims::Both => {
            sides.compile(alloc, Aim::Mips, names, texts)?;
            sides.compile(alloc, Aim::Sparc, names, texts)?;
        }
    }
    Ok(sides)
}

/// Begins a session with sources that are compiled.
pub fn begin(
    alloc: Global,
    aims: Aims,
    schedule: Option<u64>,
    names: &[Text],
    texts: &[Vec<u8>],
    input: &[u8],
) -> Result<Session<NearLink>, Stop>
    requires one_each { length names.now ≡ length texts.now }
    requires named { AreSourceNames names.now }
    ensures builds { BuildsFrom names.now (map items_of texts.now) result }
    ensures over { length input.now ≤ 16777216 → IfOk result (IsCompiledFor (aim_in aims) names.now (map items_of texts.now) input.now) }
{
    let sides = sides_of(alloc, aims, names, texts)?;
    let entries = match schedule {
        Some(seed) => schedule_of(alloc, seed, matches!(aims, Aims::Both))?,
        None => Vec::new(alloc),
    };
    sides.start(alloc, entries, input, false)
}

/// Begins a session with sources that were read.
fn open_texts(
    alloc: Global,
    request: &GoRequest<'_>,
    texts: &[Vec<u8>],
    input: &[u8],
) -> Result<Session<NearLink>, Stop>
    requires one_each { length texts.now ≡ length request.now.sources.now }
    requires named { AreSourceNames (map string_bytes request.now.sources.now) }
    ensures builds { BuildsFrom (map string_bytes request.now.sources.now) (map items_of texts.now) result }
    ensures over { length input.now ≤ 16777216
        → IfOk result (IsCompiledFor (aim_in request.now.aims) (map string_bytes request.now.sources.now) (map items_of texts.now) input.now) }
{
    let names = names_of(alloc, request.sources)?;
    begin(alloc, request.aims, request.schedule, &names, texts, input)
}

/// Reads the sources and the input of a request, and begins its session.
pub fn open_go<F: Files>(
    alloc: Global,
    request: &GoRequest<'_>,
    files: &mut F,
) -> Result<Session<NearLink>, Stop>
    requires { AreSourceNames (map string_bytes request.now.sources.now) }
    ensures opens { (known : FileMap) → F.held files.old ≡ Some known → Opens Go (names_in_go request.now) known result }
    ensures same { F.held files.new ≡ F.held files.old }
    ensures write_faults { F.write_faults files.new ≡ F.write_faults files.old }
    ensures cause { MatchResult result (λ _. F.read_faults files.new ≡ F.read_faults files.old)
        (IsOpenStop (IsGoStop (names_in_go request.now).about) (F.missed files.new) request.now.input.now (F.read_faults files.old) (F.read_faults files.new)) }
{
    let texts = match read_sources(alloc, files, request.sources) {
        Ok(texts) => texts,
        Err(stop) => return Err(stop),
    };
    match read_input(alloc, files, request.input) {
        Ok(input) => open_texts(alloc, request, &texts, &input),
        Err(stop) => Err(stop),
    }
}

/// Begins a session with an image and a table.
fn open_image(
    alloc: Global,
    image: &[u8],
    table: &[u8],
    input: &[u8],
) -> Result<Session<NearLink>, Stop>
    requires { length input.now ≤ 16777216 }
    ensures { LoadsFrom image.now table.now input.now result }
{
    let image = match read_image(alloc, image) {
        Ok(image) => image,
        Err(fault) => return Err(bad_image(alloc, fault)),
    };
    let mut sides = Sides::new(alloc);
    match sides.add(alloc, image, table) {
        Ok(()) => sides.start(alloc, Vec::new(alloc), input, true),
        Err(stop) => Err(stop),
    }
}

/// Reads the image, the table and the input of a request, and begins its session.
pub fn open_debug<F: Files>(
    alloc: Global,
    request: &DebugRequest<'_>,
    files: &mut F,
) -> Result<Session<NearLink>, Stop>
    ensures opens { (known : FileMap) → F.held files.old ≡ Some known → Opens Debug (names_in_debug request.now) known result }
    ensures same { F.held files.new ≡ F.held files.old }
    ensures write_faults { F.write_faults files.new ≡ F.write_faults files.old }
    ensures cause { MatchResult result (λ _. F.read_faults files.new ≡ F.read_faults files.old)
        (IsOpenStop IsDebugStop (F.missed files.new) request.now.input.now (F.read_faults files.old) (F.read_faults files.new)) }
{
    let image = match read_file(alloc, files, request.image, MOST_IMAGE) {
        Ok(image) => image,
        Err(stop) => return Err(stop),
    };
    let table = match read_file(alloc, files, request.table, MOST_TABLE) {
        Ok(table) => table,
        Err(stop) => return Err(stop),
    };
    match read_input(alloc, files, request.input) {
        Ok(input) => open_image(alloc, &image, &table, &input),
        Err(stop) => Err(stop),
    }
}
