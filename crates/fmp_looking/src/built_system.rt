//! A system that is built from its texts.
use fmp_base::System;
use fmp_image_bytes::Image;

/// A system that two texts build.
#[derive(Clone, Copy)]
pub struct BuiltSystem<'a> {
    pub image: &'a Image,
    /// What the configuration describes: the same system, with the names of bodies in place of their numbers.
    pub configured: &'a System,
}
