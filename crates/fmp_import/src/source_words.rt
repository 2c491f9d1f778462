//! Words of other kernels: their classes, and why static APIs of theirs are left out.
use crate::plan::SourceClass;

/// The class of objects that stand outside of one.
pub const OUTSIDE: SourceClass = SourceClass {
    processor: 1,
    only: false,
};

/// Why a static API is left out.
pub fn why_left_out(word: &[u8]) -> &'static str {
    match word {
        b"INCLUDE" => "files of the target are not read",
        b"CRE_ALM" => "there are no alarm handlers",
        b"CRE_MTX" => "there are no mutexes; a semaphore with one count excludes too",
        b"CRE_PDQ" => "there are no priority data queues",
        b"CRE_MBF" => "there are no message buffers",
        b"CRE_POR" => "there are no rendezvous",
        b"CRE_MPF" | b"CRE_MPL" => "there are no memory pools",
        b"DEF_TEX" => "there are no task exceptions",
        b"DEF_OVR" => "there are no overrun handlers",
        b"DEF_SVC" => "there are no service call routines",
        b"DEF_EXC" => "there are no CPU exceptions",
        b"CFG_INT" => "interrupts have no levels, and are always enabled",
        b"ATT_ISR" | b"CRE_ISR" => "an interrupt has one handler, which `DEF_INH` defines",
        b"ATT_INI" | b"ATT_TER" => "nothing but handlers and tasks runs",
        b"DEF_ICS" => "handlers need no stack of their own",
        b"NUM_PRC" => "the classes say how many processors there are",
        _ => "it is no static API of this project",
    }
}

/// The class of this name.
pub fn class_named(name: &[u8]) -> Option<SourceClass> {
    let (digit, only) = match name {
        [b'T', b'C', b'L', b'_', digit] => (digit, false),
        [b'T', b'C', b'L', b'_', digit, b'_', b'O', b'N', b'L', b'Y'] => (digit, true),
        [b'C', b'L', b'S', b'_', b'P', b'R', b'C', digit] => (digit, true),
        [
            b'C',
            b'L',
            b'S',
            b'_',
            b'A',
            b'L',
            b'L',
            b'_',
            b'P',
            b'R',
            b'C',
            digit,
        ] => (digit, false),
        _ => return None,
    };
    match *digit {
        b'1'..=b'8' => Some(SourceClass {
            processor: *digit - b'0',
            only,
        }),
        _ => None,
    }
}
