//! What is tested, and how, and where the coverage of runs is written.
use fmp_base::System;
use fmp_image_bytes::Image;
use fmp_trials::InterruptRate;

/// What is tested, and how.
#[derive(Clone, Copy)]
pub struct Testing<'a> {
    pub cfg: &'a str,
    pub src: &'a str,
    /// The file of what is expected.
    pub expect: Option<&'a str>,
    /// How often interrupts come, as `3:50`.
    pub rates: &'a [&'a str],
    /// How often the clock advances: once in this many events.
    pub tick: u32,
    /// How many events a run has at most, 1 to 2^20.
    pub events: u32,
    /// How many runs are made.
    pub seeds: u32,
    /// How many threads make them.
    pub jobs: u32,
    /// The bound of a stretch.
    pub bound: u64,
    /// The file of a report in the XML of JUnit, if one is written.
    pub junit: Option<&'a str>,
    /// Whether what comes of the runs is printed as an object of JSON.
    pub json: bool,
    /// Where the coverage of the runs is written.
    pub files: CoverageFiles<'a>,
}

/// A test of an image: random runs of it, judged by the text of expectations in a file.
#[derive(Clone, Copy)]
pub struct ImageTest<'a> {
    pub image: &'a Image,
    /// What the configuration describes: the same system, with the names of bodies in place of their numbers.
    pub configured: &'a System,
    /// The file of what is expected.
    pub expect: &'a str,
    /// How often interrupts come.
    pub rates: &'a [InterruptRate],
    /// What was asked for.
    pub testing: Testing<'a>,
}

/// The texts of a test: of the bodies, and of what is expected.
#[derive(Clone, Copy)]
pub struct TestTexts<'a> {
    pub src: &'a [u8],
    pub expectations: &'a [u8],
}

/// A test of an image with the texts of its files.
#[derive(Clone, Copy)]
pub struct ReadTest<'a> {
    pub test: &'a ImageTest<'a>,
    pub texts: TestTexts<'a>,
}

/// The files to which the coverage of runs is written, where that is asked for.
#[derive(Clone, Copy)]
pub struct CoverageFiles<'a> {
    /// That of a tracefile of lcov.
    pub lcov: Option<&'a str>,
    /// That of a table.
    pub coverage: Option<&'a str>,
}
