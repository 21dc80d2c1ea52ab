// What the hub was told of the modules of a folder.
use hmr_types::{ModName, Text, Ver};
use live_lines::News;
use std::alloc::{AllocError, Global};
use std::collections::BTreeMap;

/// The texts that the modules have at the hub, how many edits it counted, and how many jobs came of them;
/// and whether the folder couldn't be looked at.
#[derive(Drop)]
pub(crate) struct Known {
    texts: BTreeMap<ModName, Vec<u8>>,
    counted: Ver,
    jobs: u64,
    away: bool,
}

impl Known {
    /// Of a hub that was told nothing.
    pub fn new(alloc: Global) -> Known {
        Known {
            texts: BTreeMap::new(alloc),
            counted: 0,
            jobs: 0,
            away: false,
        }
    }

    /// How many modules there are.
    pub fn modules(&self) -> usize {
        self.texts.len()
    }

    /// How many edits the hub counted.
    pub fn counted(&self) -> Ver {
        self.counted
    }

    /// How many jobs came of the edits.
    pub fn jobs(&self) -> u64 {
        self.jobs
    }

    /// Whether a module has this text, or has none.
    pub fn has(&self, name: &ModName, text: &Option<Vec<u8>>) -> bool {
        match (self.texts.get(name), text) {
            (Some(known), Some(text)) => known.as_slice() == text.as_slice(),
            (None, None) => true,
            (Some(_), None) | (None, Some(_)) => false,
        }
    }

    /// Notes an edit that the hub counted, and gives what there is to tell of it.
    pub fn note(&mut self, name: ModName, text: Option<Vec<u8>>) -> Result<News, AllocError> {
        self.counted = self.counted.saturating_add(1);
        let version = self.counted;
        match text {
            Some(text) => {
                self.jobs = self.jobs.saturating_add(1);
                self.texts.insert(name.clone()?, text)?;
                Ok(News::Saved { name, version })
            }
            None => {
                self.texts.remove(&name);
                Ok(News::Removed { name, version })
            }
        }
    }

    /// Notes whether the folder could be looked at, and gives what there is to tell, where that changed.
    pub fn note_away(&mut self, away: bool) -> Option<News> {
        if self.away == away {
            return None;
        }
        self.away = away;
        Some(News::Away { away })
    }
}

/// The name as a text.
pub(crate) fn text_of(alloc: Global, name: &ModName) -> Result<Text, AllocError> {
    Ok(Text::from_string(format!(in alloc; "{name}")?))
}
