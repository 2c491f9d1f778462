//! The names of a text in C.
ghost use Rattle.std.specs.Prelude.{◌≡◌, ◌++◌, OnOk};
ghost use Rattle.std.specs.List.{list_any};
ghost use Rattle.std.specs.Str.{bytes_eq};
ghost use Rattle.fmp_export.specs.Words as spec;
ghost use Rattle.fmp_export.specs.Words.{c_function, c_name};

use crate::text::append;
use fmp_base::Name;
use std::alloc::AllocError;

/// Words of C and names of its headers, of the port's and of those that are exported, which a text may give its own.
pub const TAKEN: [&str; 149] = [
    "BODIES_H",
    "BUFSIZ",
    "EOF",
    "E_RSFN",
    "FILE",
    "L_ctermid",
    "L_cuserid",
    "L_tmpnam",
    "PTRDIFF_MAX",
    "PTRDIFF_MIN",
    "SEEK_CUR",
    "SEEK_END",
    "SEEK_SET",
    "SIG_ATOMIC_MAX",
    "SIG_ATOMIC_MIN",
    "SIZE_MAX",
    "WCHAR_MAX",
    "WCHAR_MIN",
    "WINT_MAX",
    "WINT_MIN",
    "alignas",
    "alignof",
    "asm",
    "auto",
    "bool",
    "case",
    "char",
    "clearerr",
    "const",
    "constexpr",
    "ctermid",
    "default",
    "do",
    "double",
    "enum",
    "extern",
    "false",
    "fclose",
    "fdopen",
    "feof",
    "ferror",
    "fflush",
    "fgetc",
    "fgetpos",
    "fgets",
    "fileno",
    "float",
    "flockfile",
    "fopen",
    "for",
    "fprintf",
    "fputc",
    "fputs",
    "fread",
    "freopen",
    "fscanf",
    "fseek",
    "fsetpos",
    "ftell",
    "ftrylockfile",
    "funlockfile",
    "fwrite",
    "getc",
    "getc_unlocked",
    "getchar",
    "getchar_unlocked",
    "gets",
    "goto",
    "inline",
    "int",
    "linux",
    "long",
    "main",
    "memchr",
    "memcmp",
    "memcpy",
    "memmove",
    "memset",
    "nullptr",
    "offsetof",
    "pclose",
    "perror",
    "popen",
    "printf",
    "putc",
    "putc_unlocked",
    "putchar",
    "putchar_unlocked",
    "puts",
    "register",
    "remove",
    "rename",
    "restrict",
    "rewind",
    "scanf",
    "setbuf",
    "setvbuf",
    "short",
    "signed",
    "sizeof",
    "snprintf",
    "sprintf",
    "sscanf",
    "static",
    "static_assert",
    "stderr",
    "stdin",
    "stdout",
    "strcat",
    "strchr",
    "strcmp",
    "strcoll",
    "strcpy",
    "strcspn",
    "strerror",
    "strlen",
    "strncat",
    "strncmp",
    "strncpy",
    "strpbrk",
    "strrchr",
    "strspn",
    "strstr",
    "strtok",
    "strtok_r",
    "struct",
    "strxfrm",
    "switch",
    "thread_local",
    "tmpfile",
    "tmpnam",
    "true",
    "typedef",
    "typeof",
    "typeof_unqual",
    "ungetc",
    "union",
    "unix",
    "unsigned",
    "va_list",
    "vfprintf",
    "vfscanf",
    "void",
    "volatile",
    "vprintf",
    "vscanf",
    "vsnprintf",
    "vsprintf",
    "vsscanf",
];

/// Whether a name is among some words.
pub fn is_among(words: &[&str], name: &[u8]) -> bool
    ensures { result ≡ list_any (λ word. bytes_eq word.now name.now) words.now }
{
    for word in words {
        if word.as_bytes() == name {
            return true;
        }
    }
    false
}

/// Whether a name begins or ends as those of C, of the port or of what is exported do.
fn looks_taken(name: &[u8]) -> bool
    ensures { result ≡ spec.looks_taken name.now }
{
    name.starts_with(b"_")
        || name.starts_with(b"fmp_")
        || name.starts_with(b"FMP_")
        || name.ends_with(b"_body")
        || name.ends_with(b"_t")
        || name.ends_with(b"_MAX")
        || name.ends_with(b"_MIN")
        || name.ends_with(b"_")
}

/// Appends the name of a variable or of an object, which gets a `_` where C may have the name.
#[tactic(auto, unfolding(crate::specs::Words::c_name))]
pub fn append_name(name: &Name, out: &mut Vec<u8>) -> Result<(), AllocError>
    ensures { OnOk result (out.new.items ≡ out.old.items ++ c_name name.now) }
{
    let text = name.as_bytes();
    append(text, out)?;
    if looks_taken(text) || is_among(&TAKEN, text) {
        append(b"_", out)
    } else {
        Ok(())
    }
}

/// Appends the name of the function of a body.
#[tactic(auto, unfolding(crate::specs::Words::c_function))]
pub fn append_function(name: &Name, out: &mut Vec<u8>) -> Result<(), AllocError>
    ensures { OnOk result (out.new.items ≡ out.old.items ++ c_function name.now) }
{
    append(name.as_bytes(), out)?;
    append(b"_body", out)
}
