//! What a search is about: an image, the bound of its stretches, and the question.

use fmp_image_bytes::Image;
use fmp_question::Question;

/// The image whose schedules are searched, the most instructions of a stretch of its bodies, and what is asked.
#[derive(Drop)]
pub struct SearchSubject<'a> {
    pub image: &'a Image,
    pub n: u64,
    pub question: &'a Question,
}
