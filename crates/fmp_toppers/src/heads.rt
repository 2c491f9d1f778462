//! What stands at the heads of the files and of a table, whatever the system is.

/// What stands before the static APIs: what the target does otherwise than the kernel that runs the text.
pub const CONFIGURATION_HEAD: &[u8] = b"/*
 * Objects for TOPPERS/FMP. A text may use their numbers, so they come first: include the services of the target (its
 * timer, syslog) after them.
 *
 * What TOPPERS/FMP does otherwise than the kernel by which the text was run and explored:
 *
 *   act_tsk, mact_tsk, wup_tsk   TMAX_ACTCNT and TMAX_WUPCNT requests of a task are queued, mostly 1; there 255
 *   mact_tsk, mig_tsk, chg_pri   may answer other codes where they refuse
 *   mrot_rdq                     FMP3 takes the processor first; fmp_toppers.h turns the arguments round
 *   set_flg, clr_flg             take all bits; there E_PAR above 65535
 *   snd_mbx                      a message that is queued already breaks the queue; there E_OBJ
 *   put                          a line of the log
 *   ld_shr, st_shr               volatile words: processors see each other's writes in order under a spin lock alone
 *   time limits, periods         in units of FMP_TICK, up to TMAX_RELTIM; there up to 2^30 ticks
 *   calls that begin with i      FMP3 has none: handlers make the calls of tasks, and E_CTX is no answer to them
 *   handlers                     nest by the priorities of their interrupts; there they do not
 *   bodies                       are interrupted anywhere; there at calls and at turns of loops
 *   faults (F_OVF, F_DIV, F_IDX) a line of the log; a task ends, and in a handler the kernel stops
 *   stacks                       have FMP_STACK bytes beside those of the text
 */
#include \"bodies.h\"

";

/// What the header begins with.
pub const HEADER_HEAD: &[u8] = b"#ifndef FMP_BODIES_H
#define FMP_BODIES_H

";

/// What the file of the bodies begins with. Inside bodies `exinf` is the first variable, whatever else has the name.
pub const BODIES_HEAD: &[u8] = b"#include \"bodies.h\"
#include \"kernel_cfg.h\"
#undef exinf
";

/// What stands before the numbers of the interrupts.
pub const INTERRUPTS_HEAD: &[u8] = b"/*
 * Interrupts: fill in the numbers and priorities that the target gives them. Handlers do not nest if all of them, and
 * the timer, have one priority.
 */
";
