//! What stands beside the C of a task text, whatever the text is.

/// The makefile of a folder with `bodies.h`, `bodies.c`, `main.c`, the configuration as `system.cfg` and the text as
/// `system.src`. It finds the library for C by pkg-config, where `make install` has put it.
pub const MAKEFILE: &[u8] = b"# make                   builds the program `exported`
# make run STEPS=FILE    runs it over a steps text, in virtual time
# make live              runs it in real time: TICKS ticks of TICK nanoseconds each
#
# With SHADOW=1 the program is `exported-shadow`. It holds the image of its text, which `fmp` builds, and is checked:
# the first call that the text does not make next ends the run.
CFLAGS = -std=c11 -O2 -Wall -Wextra -Wconversion
TICK = 1000000
TICKS = 10000
PROGRAM = exported$(SHADOW:1=-shadow)
FMP = $(shell pkg-config --cflags --libs fmp)

all: $(PROGRAM)

exported: bodies.c main.c bodies.h
\t$(CC) $(CFLAGS) bodies.c main.c $(FMP) -o $@

exported-shadow: bodies.c main.c bodies.h image.h
\t$(CC) $(CFLAGS) -DFMP_SHADOW bodies.c main.c $(FMP) -o $@

image.h: system.cfg system.src
\tfmp build system.cfg system.src system.img > /dev/null
\tod -An -v -tx1 system.img | sed 's/ \\([0-9a-f]*\\)/0x\\1,/g' > $@

.PHONY: all run live
run: $(PROGRAM)
\t./$(PROGRAM) system.cfg $(if $(STEPS),\"$(STEPS)\")

live: $(PROGRAM)
\t./$(PROGRAM) live system.cfg $(TICK) $(TICKS)
";
