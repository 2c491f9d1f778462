//! The objects of a configuration, and how a task text uses them.
use fmp_base::{Action, Name, Service};
use fmp_cfgparse::ObjectName;
use fmp_diagnosis::apis::{api_at, entry_of, object_name, value_of};
use fmp_diagnosis::fields::Field;
use fmp_lex::{Api, Tokens};
use indexmap::IndexSet;
use std::alloc::{AllocError, Global};

/// All bits of an eventflag.
const ALL_BITS: i64 = 65_535;

/// How calls use an object that is their first argument.
#[derive(Clone, Copy)]
pub struct Uses {
    /// A call signals or sets it, or sends to it.
    pub is_raised: bool,
    /// A call acquires from it, waits for it, or receives from it.
    pub is_taken: bool,
    /// A call wakes it up, releases its wait or terminates it.
    pub is_woken: bool,
}

impl Uses {
    /// No call uses it.
    fn none() -> Uses {
        Uses {
            is_raised: false,
            is_taken: false,
            is_woken: false,
        }
    }

    /// The uses, and that by one call more.
    fn with(self, service: Service) -> Uses {
        let mut uses = self;
        match service.action() {
            Some(Action::Gives) => uses.is_raised = true,
            Some(Action::Takes) => uses.is_taken = true,
            Some(Action::WakesUp) => uses.is_woken = true,
            _
                if matches!(
                    service,
                    Service::RelWai | Service::IrelWai | Service::TerTsk
                ) => { uses.is_woken = true }
            _ => {}
        }
        uses
    }

    /// The uses of both.
    fn and(self, other: Uses) -> Uses {
        Uses {
            is_raised: self.is_raised || other.is_raised,
            is_taken: self.is_taken || other.is_taken,
            is_woken: self.is_woken || other.is_woken,
        }
    }
}

/// An object of the configuration.
#[derive(Clone, Copy)]
pub struct NamedObject {
    /// Its name.
    pub name: Name,
    /// The static API that makes it.
    pub api: Api,
    /// The place of the API's word among the tokens of the configuration.
    pub at: usize,
    /// The name of the body that it begins with, if it has one.
    pub entry: Option<Name>,
    /// Whether its name stands in the task text.
    pub is_named: bool,
    /// The uses by calls that name it.
    uses: Uses,
    /// The bits of an eventflag that are set at first or by calls that name it.
    bits: i64,
}

/// The objects of a configuration, each found by its name.
#[derive(Drop)]
pub struct NamedObjects {
    names: IndexSet<ObjectName>,
    /// The objects, in order of text.
    pub list: Vec<NamedObject>,
    /// Of each static API, in order, the uses by calls that may be of any object that it makes.
    unnamed: [Uses; 10],
    /// Of each static API, in order, whether a call computes which of its objects it takes.
    are_computed: [bool; 10],
}

/// The object of this name that the static API at a place makes, as it is at first.
fn object_at(tokens: &Tokens<'_>, at: usize, api: Api, name: Name) -> NamedObject {
    NamedObject {
        name,
        api,
        at,
        entry: entry_of(tokens, at, api),
        is_named: false,
        uses: Uses::none(),
        bits: i64::from(value_of(tokens, at, api, Field::InitialPattern)),
    }
}

impl NamedObjects {
    /// The objects that these tokens make. Of two of one name the first is found.
    pub fn of(alloc: Global, tokens: &Tokens<'_>) -> Result<NamedObjects, AllocError> {
        let mut objects = NamedObjects {
            names: IndexSet::new(alloc),
            list: Vec::new(alloc),
            unnamed: [Uses::none(); 10],
            are_computed: [false; 10],
        };
        for at in 0..tokens.len() {
            if let (Some(api), Some(name)) = (api_at(tokens, at), object_name(tokens, at)) {
                objects.add(object_at(tokens, at, api, name))?;
            }
        }
        Ok(objects)
    }

    fn add(&mut self, object: NamedObject) -> Result<(), AllocError> {
        self.names.insert(ObjectName { name: object.name })?;
        self.list.push(object)?;
        Ok(())
    }

    /// The place of the object of this name.
    fn place(&self, name: Name) -> Option<usize> {
        self.names.get_index_of(&ObjectName { name })
    }

    /// The object of this name.
    pub fn named(&self, name: Name) -> Option<NamedObject> {
        self.list.get(self.place(name)?).copied()
    }

    /// What makes the object of this name.
    pub fn api_of(&self, name: Name) -> Option<Api> {
        Some(self.named(name)?.api)
    }

    /// The name stands in the task text: what makes the object of this name.
    pub fn note_named(&mut self, name: Name) -> Option<Api> {
        let place = self.place(name)?;
        let object = self.list.get_mut(place)?;
        object.is_named = true;
        Some(object.api)
    }

    /// A call has the name as its first argument.
    pub fn note_call(&mut self, service: Service, name: Name) {
        if let Some(place) = self.place(name) {
            if let Some(object) = self.list.get_mut(place) {
                object.uses = object.uses.with(service);
            }
        }
    }

    /// A call has something else as its first argument, which may stand for any object of a static API.
    pub fn note_any(&mut self, service: Service, api: Api) {
        self.unnamed[api as usize] = self.unnamed[api as usize].with(service);
    }

    /// A call computes which object it takes of those that this static API makes.
    pub fn note_computed(&mut self, api: Api) {
        self.are_computed[api as usize] = true;
    }

    /// Whether a call may take an object without its name.
    pub fn is_computed(&self, object: &NamedObject) -> bool {
        self.are_computed[object.api as usize]
    }

    /// A call sets these bits of the eventflag of this name; any bits where they are not known.
    pub fn note_bits(&mut self, name: Name, bits: Option<i64>) {
        if let Some(place) = self.place(name) {
            if let Some(object) = self.list.get_mut(place) {
                object.bits |= bits.unwrap_or(ALL_BITS);
            }
        }
    }

    /// How calls may use an object.
    pub fn uses_of(&self, object: &NamedObject) -> Uses {
        object.uses.and(self.unnamed[object.api as usize])
    }

    /// The bits of an eventflag that may be set.
    pub fn bits_of(&self, object: &NamedObject) -> i64 {
        if self.unnamed[Api::CreFlg as usize].is_raised {
            ALL_BITS
        } else {
            object.bits
        }
    }
}
