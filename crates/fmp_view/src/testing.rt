//! The command `test`: random runs of two texts.
ghost use Rattle.fmp_cfgparse.specs.Configurations.{Describes};
ghost use Rattle.fmp_looking.specs.TestDeeds.{IsDone, IsRefusal};
ghost use Rattle.fmp_view.specs.Verdicts.{EndsTestFiles, EndsTestTexts};

use fmp_base::System;
use fmp_cfgparse::read_cfg;
use fmp_diagnosis::Texts;
use fmp_files::{Failure, Outside, end};
use fmp_image::build;
use fmp_lex::BuildFault;
use fmp_looking::{BuiltSystem, Testing, test_image};
use fmp_searching::{print_fault, read_both};
use fmp_warnings::{FileNames, Form};
use std::alloc::{AllocError, Global};
use std::thread::Threads;

/// Prints the first fault of two texts, which build no image, and gives the status.
#[tactic(auto, using(fmp_looking::proofs::TestEnds::three_refuses, crate::proofs::Endings::fault_refuses))]
fn refuse_texts<O: Outside>(
    alloc: Global,
    outside: &mut O,
    testing: &Testing<'_>,
    fault: &BuildFault,
) -> u8
    ensures { IsRefusal result }
{
    let names = FileNames {
        cfg: testing.cfg,
        src: testing.src,
        steps: "",
    };
    match fault {
        BuildFault::Memory => end(outside, &Failure::Memory(AllocError)),
        BuildFault::At(..) => print_fault(alloc, outside, names, Form::Text).max(1),
    }
}

/// The two texts of a system, and the system that the configuration describes.
#[derive(Clone, Copy)]
struct DescribedTexts<'a> {
    texts: Texts<'a>,
    configured: &'a System,
}

/// Makes random runs of the system of two texts, or prints their first fault, with status 1.
#[tactic(auto, using(fmp_looking::proofs::TestEnds::not_done))]
fn test_system<O: Outside, R: Threads + Sync>(
    alloc: Global,
    outside: &mut O,
    rt: &R,
    described: DescribedTexts<'_>,
    testing: &Testing<'_>,
) -> u8
    requires { Describes described.texts.cfg.now described.configured.now }
    ensures { IsDone result → EndsTestTexts (O.files outside.old) described.entry.texts.cfg.now
        described.entry.texts.src.now testing.now (O.done outside.old) (O.done outside.new) result }
{
    match build(alloc, described.texts.cfg, described.texts.src) {
        Ok(image) => {
            let built = BuiltSystem {
                image: &image,
                configured: described.configured,
            };
            let status = test_image(alloc, outside, rt, &built, testing);
            drop(image);
            status
        }
        Err(fault) => refuse_texts(alloc, outside, testing, &fault),
    }
}

/// Makes random runs of the system of two texts, or prints their first fault, with status 1.
#[tactic(auto, using(fmp_looking::proofs::TestEnds::not_done))]
fn test_texts<O: Outside, R: Threads + Sync>(
    alloc: Global,
    outside: &mut O,
    rt: &R,
    texts: Texts<'_>,
    testing: &Testing<'_>,
) -> u8
    ensures { IsDone result → EndsTestTexts (O.files outside.old) texts.entry.cfg.now texts.entry.src.now testing.now
        (O.done outside.old) (O.done outside.new) result }
{
    match read_cfg(alloc, texts.cfg) {
        Ok(configured) => {
            let described = DescribedTexts {
                texts,
                configured: &configured,
            };
            let status = test_system(alloc, outside, rt, described, testing);
            drop(configured);
            status
        }
        Err(fault) => refuse_texts(alloc, outside, testing, &fault),
    }
}

/// Makes random runs of the system of the texts of two files: it prints the steps of the first that fails an
/// expectation, made shorter, with status 4. If none fails, it prints nothing, with status 0. Its threads are those of
/// this runtime.
#[tactic(auto, using(fmp_looking::proofs::TestEnds::not_done, fmp_looking::proofs::TestEnds::three_refuses))]
pub fn run_test<O: Outside, R: Threads + Sync>(
    alloc: Global,
    outside: &mut O,
    rt: &R,
    testing: &Testing<'_>,
) -> u8
    ensures { IsDone result → EndsTestFiles (O.files outside.old) testing.now (O.done outside.old)
        (O.done outside.new) result }
{
    match read_both(alloc, outside, testing.cfg, testing.src) {
        Ok((cfg, src)) => {
            let texts = Texts {
                cfg: &cfg,
                src: &src,
            };
            test_texts(alloc, outside, rt, texts, testing)
        }
        Err(failure) => end(outside, &failure),
    }
}
