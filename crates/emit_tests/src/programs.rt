// Programs and placements, as a checker and a linker would give them.

use c_tree::{
    CType, Function, Local, Member, ObjectRow, Point, Program, Referent, Site, Stmt, StructDef,
    SymbolRow, UnitRow,
};
use ldb_words::{Many, Text};
use obj_file::{FunctionRow, LocalPlace};
use ps_emit::Placement;
use std::alloc::{AllocError, Global};
use std::rc::Rc;

fn text(alloc: Global, bytes: &[u8]) -> Result<Text, AllocError> {
    Text::from_slice(alloc, bytes)
}

fn many(alloc: Global, numbers: &[u32]) -> Result<Many<u32>, AllocError> {
    Ok(Many::from_vec(Vec::from_slice(alloc, numbers)?))
}

fn pointer(alloc: Global, to: CType) -> Result<CType, AllocError> {
    Ok(CType::Pointer(Rc::new(alloc, to)?))
}

fn array(alloc: Global, item: CType, count: u32) -> Result<CType, AllocError> {
    Ok(CType::Array(Rc::new(alloc, item)?, count))
}

/// Locals, and which of them are declared `register`.
fn locals(alloc: Global, registers: &[bool]) -> Result<Many<Local>, AllocError> {
    let mut locals = Many::new(alloc);
    for register in registers {
        locals.push(Local {
            name: text(alloc, b"local")?,
            ctype: CType::Int,
            register: *register,
        })?;
    }
    Ok(locals)
}

/// A program without rows.
fn nothing(alloc: Global) -> Program {
    Program {
        units: Many::new(alloc),
        defs: Many::new(alloc),
        objects: Many::new(alloc),
        strings: Many::new(alloc),
        functions: Many::new(alloc),
        points: Many::new(alloc),
        symbols: Many::new(alloc),
    }
}

fn add_function(
    alloc: Global,
    program: &mut Program,
    name: &[u8],
    unit: u32,
    locals: Many<Local>,
    points: &[u32],
) -> Result<(), AllocError> {
    program.functions.push(Function {
        name: text(alloc, name)?,
        unit,
        is_static: unit > 0,
        result: CType::Int,
        params: 0,
        locals,
        points: many(alloc, points)?,
        body: Stmt::Break(Site {
            at: 0,
            line: 1,
            column: 1,
        }),
    })
}

fn add_point(
    program: &mut Program,
    function: u32,
    line: u32,
    column: u32,
    symbol: u32,
) -> Result<(), AllocError> {
    program.points.push(Point {
        function,
        line,
        column,
        symbol: Some(symbol),
    })
}

fn add_symbol(
    alloc: Global,
    program: &mut Program,
    name: &[u8],
    ctype: CType,
    refers: Referent,
    up: Option<u32>,
) -> Result<(), AllocError> {
    program.symbols.push(SymbolRow {
        name: text(alloc, name)?,
        ctype,
        refers,
        up,
    })
}

fn add_unit(
    alloc: Global,
    program: &mut Program,
    file: &[u8],
    functions: &[u32],
) -> Result<(), AllocError> {
    program.units.push(UnitRow {
        file: text(alloc, file)?,
        functions: many(alloc, functions)?,
    })
}

fn add_object(
    alloc: Global,
    program: &mut Program,
    name: &[u8],
    unit: u32,
    ctype: CType,
) -> Result<(), AllocError> {
    program.objects.push(ObjectRow {
        name: text(alloc, name)?,
        unit,
        is_static: unit == 0,
        ctype,
        start: Many::new(alloc),
    })
}

/// The names of the built-ins, which are the first three.
fn add_built_ins(alloc: Global, program: &mut Program) -> Result<(), AllocError> {
    add_symbol(
        alloc,
        program,
        b"getchar",
        CType::Int,
        Referent::Declared,
        None,
    )?;
    add_symbol(
        alloc,
        program,
        b"putchar",
        CType::Int,
        Referent::Declared,
        Some(0),
    )?;
    add_symbol(
        alloc,
        program,
        b"exit",
        CType::Void,
        Referent::Declared,
        Some(1),
    )
}

fn row_of(
    alloc: Global,
    name: &[u8],
    entry: u32,
    end: u32,
    points: &[u32],
) -> Result<FunctionRow, AllocError> {
    Ok(FunctionRow {
        name: text(alloc, name)?,
        entry,
        end,
        frame: 72,
        saved: Many::new(alloc),
        points: many(alloc, points)?,
        locals: Many::new(alloc),
    })
}

/// A file with `main` alone.
pub fn none_program(alloc: Global, target: u8) -> Result<(Program, Placement), AllocError> {
    let mut program = nothing(alloc);
    add_unit(alloc, &mut program, b"none.c", &[0])?;
    add_function(alloc, &mut program, b"main", 0, Many::new(alloc), &[0])?;
    add_point(&mut program, 0, 1, 16, 3)?;
    add_built_ins(alloc, &mut program)?;
    add_symbol(
        alloc,
        &mut program,
        b"main",
        CType::Int,
        Referent::Function(0),
        Some(2),
    )?;
    let mut functions = Many::new(alloc);
    functions.push(row_of(alloc, b"main", 4_194_336, 4_194_400, &[4_194_340])?)?;
    let placement = Placement {
        target,
        anchors: Many::new(alloc),
        functions,
    };
    Ok((program, placement))
}

/// The structs: `node`, which leads to itself, and `hidden`, which is not complete.
fn add_structs(alloc: Global, program: &mut Program) -> Result<(), AllocError> {
    let mut members = Many::new(alloc);
    members.push(Member {
        name: text(alloc, b"value")?,
        at: 0,
        ctype: CType::Int,
    })?;
    members.push(Member {
        name: text(alloc, b"next")?,
        at: 4,
        ctype: pointer(alloc, CType::Struct(0))?,
    })?;
    program.defs.push(StructDef {
        tag: text(alloc, b"node")?,
        size: 8,
        members,
    })?;
    program.defs.push(StructDef {
        tag: text(alloc, b"hidden")?,
        size: 0,
        members: Many::new(alloc),
    })
}

/// The names: those of the file `list.c` from 3 on, those of `b(1).c` from 8 on. There `table` is declared without its bound.
fn add_names(alloc: Global, program: &mut Program) -> Result<(), AllocError> {
    add_built_ins(alloc, program)?;
    let node = pointer(alloc, CType::Struct(0))?;
    add_symbol(alloc, program, b"head", node, Referent::Object(0), Some(2))?;
    add_symbol(
        alloc,
        program,
        b"main",
        CType::Int,
        Referent::Function(0),
        Some(3),
    )?;
    add_symbol(
        alloc,
        program,
        b"x",
        CType::Int,
        Referent::Local(0),
        Some(4),
    )?;
    add_symbol(
        alloc,
        program,
        b"r",
        CType::Char,
        Referent::Local(1),
        Some(5),
    )?;
    add_symbol(
        alloc,
        program,
        b"late",
        CType::Int,
        Referent::Local(2),
        Some(6),
    )?;
    let open = array(alloc, CType::Int, 0)?;
    add_symbol(alloc, program, b"table", open, Referent::Object(1), Some(2))?;
    add_symbol(
        alloc,
        program,
        b"help",
        CType::Unsigned,
        Referent::Function(1),
        Some(8),
    )
}

/// The places of the functions and objects.
fn list_placement(alloc: Global, target: u8) -> Result<Placement, AllocError> {
    let mut main = row_of(
        alloc,
        b"main",
        4_194_304,
        4_194_400,
        &[4_194_312, 4_194_320],
    )?;
    main.saved.push((31, -8))?;
    main.saved.push((16, -12))?;
    main.locals.push(LocalPlace::Slot(-20))?;
    main.locals.push(LocalPlace::Reg(16))?;
    main.locals.push(LocalPlace::Slot(-28))?;
    let mut functions = Many::new(alloc);
    functions.push(main)?;
    functions.push(row_of(alloc, b"help", 4_194_400, 4_194_432, &[4_194_408])?)?;
    let mut anchors = Many::new(alloc);
    anchors.push((text(alloc, b"g0")?, 268_435_456))?;
    anchors.push((text(alloc, b"g1")?, 268_435_472))?;
    anchors.push((text(alloc, b"g2")?, 4_026_531_840))?;
    Ok(Placement {
        target,
        anchors,
        functions,
    })
}

/// Two files with structs, static objects, a string, locals in memory and in a register, a `register` variable that got none, and a name that is declared in two ways.
pub fn list_program(alloc: Global, target: u8) -> Result<(Program, Placement), AllocError> {
    let mut program = nothing(alloc);
    add_unit(alloc, &mut program, b"list.c", &[0])?;
    add_unit(alloc, &mut program, b"b(1).c", &[1])?;
    add_structs(alloc, &mut program)?;
    let node = pointer(alloc, CType::Struct(0))?;
    add_object(alloc, &mut program, b"head", 0, node)?;
    let three = array(alloc, CType::Int, 3)?;
    add_object(alloc, &mut program, b"table", 1, three)?;
    program.strings.push(text(alloc, b"hi")?)?;
    let of_main = locals(alloc, &[false, true, true])?;
    add_function(alloc, &mut program, b"main", 0, of_main, &[0, 1])?;
    add_function(alloc, &mut program, b"help", 1, Many::new(alloc), &[2])?;
    add_point(&mut program, 0, 3, 16, 4)?;
    add_point(&mut program, 0, 4, 3, 7)?;
    add_point(&mut program, 1, 1, 9, 9)?;
    add_names(alloc, &mut program)?;
    Ok((program, list_placement(alloc, target)?))
}
