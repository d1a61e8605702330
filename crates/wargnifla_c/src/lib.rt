// The C functions: what a host in another language links. include/wargnifla.h declares them and says what each table and number means.
// Each is the function of the same name in the crate wargnifla, with the same clauses, and does nothing but call it: a library's functions are not exported.
#![tactic(auto)]

ghost use Rattle.std.specs.Prelude.{◌≡◌};
ghost use Rattle.join.specs.Pieces as joining;
ghost use Rattle.wargnifla.specs.Boundary.{version, start, put_bytes, align, add_constant, add_reloc, lent_of, run_sheet, finish, write_relas, read_relas, join};

use relax::Segment;

// The library's version.
#[unsafe(no_mangle)]
pub extern "C" fn wargnifla_version() -> u32
    ensures { result ≡ version }
{
    wargnifla::wargnifla_version()
}

// Starts a recording.
#[unsafe(no_mangle)]
pub extern "C" fn wargnifla_start(arch: u32, symbols: u32, counts: &mut [u8]) -> u32
    ensures { (result, counts.new) ≡ start arch symbols counts.old }
{
    wargnifla::wargnifla_start(arch, symbols, counts)
}

// Appends bytes, any number of them.
#[unsafe(no_mangle)]
pub extern "C" fn wargnifla_put_bytes(counts: &mut [u8], code: &mut [u8], bytes: &[u8]) -> u32
    ensures { (result, (counts.new, code.new)) ≡ put_bytes counts.old code.old bytes.now }
{
    wargnifla::wargnifla_put_bytes(counts, code, bytes)
}

// Pads the code to a multiple, where that takes no more than `most` bytes; else it spends none.
#[unsafe(no_mangle)]
pub extern "C" fn wargnifla_align(
    counts: &mut [u8],
    code: &mut [u8],
    events: &mut [u8],
    multiple: u32,
    most: u32,
) -> u32
    ensures { (result, (counts.new, (code.new, events.new))) ≡ align counts.old code.old events.old multiple most }
{
    wargnifla::wargnifla_align(counts, code, events, multiple, most)
}

// A new constant of up to 64 bytes, and its number.
#[unsafe(no_mangle)]
pub extern "C" fn wargnifla_add_constant(
    counts: &mut [u8],
    constants: &mut [u8],
    bytes: &[u8],
    number: &mut u32,
) -> u32
    ensures { (result, (counts.new, (constants.new, number.new))) ≡ add_constant counts.old constants.old bytes.now }
{
    wargnifla::wargnifla_add_constant(counts, constants, bytes, number)
}

// A relocation with an addend of 64 bits, two's complement.
#[unsafe(no_mangle)]
pub extern "C" fn wargnifla_add_reloc(
    counts: &mut [u8],
    labels: &[u8],
    relocs: &mut [u8],
    offset: u32,
    kind: u32,
    target: u32,
    addend: u64,
) -> u32
    ensures { (result, (counts.new, relocs.new)) ≡ add_reloc counts.old labels.now relocs.old offset kind target addend }
{
    wargnifla::wargnifla_add_reloc(counts, labels, relocs, offset, kind, target, addend)
}

// Makes the calls of a sheet up to the first that is refused, whose index becomes `index`.
#[unsafe(no_mangle)]
pub extern "C" fn wargnifla_run_sheet(
    sheet: &[u8],
    index: &mut u32,
    counts: &mut [u8],
    code: &mut [u8],
    labels: &mut [u8],
    events: &mut [u8],
    uses: &mut [u8],
    refs: &mut [u8],
    constants: &mut [u8],
    asked: &mut [u8],
    relocs: &mut [u8],
) -> u32
    ensures { ((result, index.new), lent_of counts.new code.new labels.new events.new uses.new refs.new constants.new asked.new relocs.new) ≡ run_sheet sheet.now (lent_of counts.old code.old labels.old events.old uses.old refs.old constants.old asked.old relocs.old) }
{
    wargnifla::wargnifla_run_sheet(
        sheet, index, counts, code, labels, events, uses, refs, constants, asked, relocs,
    )
}

// Finishes a recording; what it reports is written to `finalized`.
#[unsafe(no_mangle)]
pub extern "C" fn wargnifla_finish(
    counts: &mut [u8],
    code: &[u8],
    labels: &mut [u8],
    events: &[u8],
    uses: &[u8],
    refs: &[u8],
    constants: &[u8],
    asked: &[u8],
    relocs: &mut [u8],
    segments: &mut [Segment],
    output: &mut [u8],
    finalized: &mut [u8],
) -> u32
    ensures { (result, (counts.new, ((labels.new, (relocs.new, (segments.new, output.new))), finalized.new))) ≡ finish (lent_of counts.old code.now labels.old events.now uses.now refs.now constants.now asked.now relocs.old) segments.old output.old finalized.old }
{
    wargnifla::wargnifla_finish(
        counts, code, labels, events, uses, refs, constants, asked, relocs, segments, output,
        finalized,
    )
}

// Writes the relocations of a finished record as ELF's Elf64_Rela entries; a label target becomes the symbol `section`.
#[unsafe(no_mangle)]
pub extern "C" fn wargnifla_write_relas(
    finalized: &[u8],
    labels: &[u8],
    relocs: &[u8],
    section: u32,
    output: &mut [u8],
) -> u32
    ensures { (result, output.new) ≡ write_relas finalized.now labels.now relocs.now section output.old }
{
    wargnifla::wargnifla_write_relas(finalized, labels, relocs, section, output)
}

// Takes such entries back to offset, type, symbol and addend.
#[unsafe(no_mangle)]
pub extern "C" fn wargnifla_read_relas(relas: &[u8], table: &mut [u8]) -> u32
    ensures { (result, table.new) ≡ read_relas relas.now table.old }
{
    wargnifla::wargnifla_read_relas(relas, table)
}

// Joins finished recordings; the record of the whole is written to `finalized`.
#[unsafe(no_mangle)]
pub extern "C" fn wargnifla_join(
    pieces: &[u8],
    code: &[u8],
    labels: &[u8],
    relocs: &[u8],
    definitions: &[u8],
    output: &mut [u8],
    joined_labels: &mut [u8],
    joined_relocs: &mut [u8],
    finalized: &mut [u8],
) -> u32
    ensures { (result, ((output.new, (joined_labels.new, joined_relocs.new)), finalized.new)) ≡ join (joining.lent_of pieces.now code.now labels.now relocs.now definitions.now) output.old joined_labels.old joined_relocs.old finalized.old }
{
    wargnifla::wargnifla_join(
        pieces,
        code,
        labels,
        relocs,
        definitions,
        output,
        joined_labels,
        joined_relocs,
        finalized,
    )
}
