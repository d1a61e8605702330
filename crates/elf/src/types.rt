// The types that ELF has for kinds of relocation, by the names of the two psABIs.
ghost use Rattle.std.specs.Prelude.{◌≡◌, slice_index_or};
ghost use Rattle.elf.specs.Elf.{no_type, x64_types, a64_types, elf_type_of, has_types, type_listed};

// No type: R_X86_64_NONE, R_AARCH64_NONE. A number and no Option: it is ELF's own, and the definition `elf_type_of` gives it.
pub const NO_TYPE: u32 = 0;

// The type of a kind on X64.
fn x64_type(kind: u32) -> u32
    ensures { result ≡ slice_index_or x64_types kind no_type }
{
    match kind {
        // Abs4: R_X86_64_32
        0 => 10,
        // Abs8: R_X86_64_64
        1 => 1,
        // X86PCRel4: R_X86_64_PC32
        2 => 2,
        // X86CallPCRel4 and X86CallPLTRel4: R_X86_64_PLT32
        3 | 4 => 4,
        // X86GOTPCRel4: R_X86_64_GOTPCREL
        5 => 9,
        // ElfX86_64TlsGd: R_X86_64_TLSGD
        9 => 19,
        _ => NO_TYPE,
    }
}

// And on AArch64.
fn aarch64_type(kind: u32) -> u32
    ensures { result ≡ slice_index_or a64_types kind no_type }
{
    match kind {
        // Abs4: R_AARCH64_ABS32
        0 => 258,
        // Abs8: R_AARCH64_ABS64
        1 => 257,
        // Arm64Call: R_AARCH64_CALL26
        8 => 283,
        // Aarch64AdrPrelPgHi21: R_AARCH64_ADR_PREL_PG_HI21
        19 => 275,
        // Aarch64AddAbsLo12Nc: R_AARCH64_ADD_ABS_LO12_NC
        20 => 277,
        _ => NO_TYPE,
    }
}

// The type of a kind, or `NO_TYPE`.
pub fn elf_type(arch: u32, kind: u32) -> u32
    ensures { result ≡ elf_type_of arch kind }
{
    match arch {
        fields::X64 => x64_type(kind),
        fields::AARCH64 => aarch64_type(kind),
        _ => NO_TYPE,
    }
}

// Whether the architecture has types.
pub fn has_types(arch: u32) -> bool
    ensures { result ≡ has_types arch }
{
    arch == fields::X64 || arch == fields::AARCH64
}

// Whether a type stands in one of the two tables.
#[tactic(auto, using(crate::proofs::Listed::unlisted, crate::proofs::Listed::listed))]
pub fn is_listed(elf_type: u32) -> bool
    ensures { result ≡ type_listed elf_type }
{
    match elf_type {
        // R_X86_64_64, _PC32, _PLT32, _GOTPCREL, _32 and _TLSGD
        1 | 2 | 4 | 9 | 10 | 19 => true,
        // R_AARCH64_ABS64, _ABS32, _ADR_PREL_PG_HI21, _ADD_ABS_LO12_NC and _CALL26
        257 | 258 | 275 | 277 | 283 => true,
        _ => false,
    }
}
