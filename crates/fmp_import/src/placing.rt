//! The objects that are written, in their classes.
use crate::plan::{Block, PlanItem, Record, SourceClass};
use crate::same_names::{is_same, is_taken};
use fmp_base::words::Api;
use std::alloc::{AllocError, Global};

/// The objects of a text so far.
#[derive(Drop)]
pub struct PlacedObjects {
    alloc: Global,
    pub blocks: Vec<Block>,
}

impl PlacedObjects {
    /// No objects.
    pub fn new(alloc: Global) -> PlacedObjects {
        PlacedObjects {
            alloc,
            blocks: Vec::new(alloc),
        }
    }

    /// How many objects of a kind there are, and whether one is defined already.
    pub fn look_up(&self, text: &[u8], api: Api, subject: PlanItem) -> (usize, bool) {
        let mut count: usize = 0;
        let mut is_there = false;
        for block in &self.blocks {
            for record in &block.records {
                if record.api == api {
                    count = count.saturating_add(1);
                }
                is_there = is_there || is_same(text, record.subject, subject);
            }
        }
        (count, is_there)
    }

    /// Puts an object into its class.
    pub fn put(&mut self, class: SourceClass, record: Record) -> Result<(), AllocError> {
        if let Some(block) = self.blocks.last_mut()
            && block.class == class
        {
            block.records.push(record)?;
            return Ok(());
        }
        let mut records = Vec::new(self.alloc);
        records.push(record)?;
        self.blocks.push(Block { class, records })?;
        Ok(())
    }

    /// What stands after the attributes of the objects, with the names of their bodies.
    fn items(&self) -> Result<Vec<PlanItem>, AllocError> {
        let mut items = Vec::new(self.alloc);
        for block in &self.blocks {
            for record in &block.records {
                items.extend_from_slice(&record.rest)?;
            }
        }
        Ok(items)
    }

    /// Whether a body that got `_` at the end of its name has the name of another one.
    pub fn has_taken(&self, text: &[u8]) -> Result<bool, AllocError> {
        let items = self.items()?;
        for item in &items {
            if let PlanItem::Escaped(word) = *item
                && is_taken(text, word, &items)
            {
                return Ok(true);
            }
        }
        Ok(false)
    }
}
