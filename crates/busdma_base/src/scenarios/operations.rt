//! What each operation and each item is about: its word, its names, and the bytes that it works on.

ghost use Rattle.std.specs.Prelude.{◌≡◌, [], None, Some, option_map, slice_get};
ghost use Rattle.busdma_base.specs.Scenarios.Names as names;
ghost use Rattle.busdma_base.specs.Scenarios.Operations as operations;

use crate::Name;
use crate::scenarios::{Buffer, Item, ItemWord, Op, OpWord};

/// The kind of thing that a name of a script names.
#[derive(Clone, Copy, Debug, PartialEq, Eq)]
pub enum NameKind {
    Tag,
    IommuTag,
    Map,
    /// A dmamem memory together with its own map.
    Memory,
    Ring,
}

/// The kind of thing that an operation or an item expects of a name that it uses.
#[derive(Clone, Copy, Debug, PartialEq, Eq)]
pub enum NameUse {
    /// A tag that is not an IOMMU tag.
    Tag,
    IommuTag,
    /// A tag of either kind.
    AnyTag,
    /// A map, which can be a memory's own.
    Map,
    /// A map that is not a memory's own.
    MapAlone,
    Memory,
    Ring,
}

/// A name that an operation makes, and the kind of thing that it names.
#[derive(Clone, Copy, Debug)]
pub struct MadeName<'s> {
    pub kind: NameKind,
    pub name: &'s str,
}

/// A name that an operation or an item uses: the kind of thing that is expected, and the place in the
/// script of the operation that made the name.
#[derive(Clone, Copy, Debug, PartialEq, Eq)]
pub struct UsedName {
    pub used_as: NameUse,
    pub made_at: u32,
}

impl NameUse {
    /// Returns whether a thing of this kind can be used in this way.
    pub fn accepts(self, kind: NameKind) -> bool
        ensures { result ≡ names.accepts self kind }
    {
        match self {
            NameUse::Tag => kind == NameKind::Tag,
            NameUse::IommuTag => kind == NameKind::IommuTag,
            NameUse::AnyTag => kind == NameKind::Tag || kind == NameKind::IommuTag,
            NameUse::Map => kind == NameKind::Map || kind == NameKind::Memory,
            NameUse::MapAlone => kind == NameKind::Map,
            NameUse::Memory => kind == NameKind::Memory,
            NameUse::Ring => kind == NameKind::Ring,
        }
    }
}

/// What an operation is about: its word, the name that it makes, the first name that it uses, its
/// items, and what it loads.
#[derive(Clone, Copy, Debug)]
pub struct OpAbout<'s> {
    pub word: OpWord,
    pub makes: Option<MadeName<'s>>,
    pub uses: Option<UsedName>,
    pub items: &'s [Item],
    pub loads: Option<&'s Buffer>,
}

/// What an item is about: its word, and the name that it uses.
#[derive(Clone, Copy, Debug, PartialEq, Eq)]
pub struct ItemAbout {
    pub word: ItemWord,
    pub uses: UsedName,
}

/// The name that a line of a journal shows.
#[derive(Clone, Copy, Debug)]
pub enum Object<'s> {
    /// The name that its operation makes.
    Makes(MadeName<'s>),
    /// A name that its operation or its item uses.
    Uses(UsedName),
}

fn made<'s>(kind: NameKind, name: &'s Name) -> Option<MadeName<'s>>
    ensures { option_map operations.made result ≡ Some (record { kind = kind; name = name.now }) }
{
    Some(MadeName {
        kind,
        name: name.as_str(),
    })
}

fn used(used_as: NameUse, made_at: u32) -> Option<UsedName>
    ensures { result ≡ Some (record { used_as = used_as; made_at = made_at }) }
{
    Some(UsedName { used_as, made_at })
}

fn parent_at(parent: Option<u32>) -> Option<UsedName>
    ensures { result ≡ slice_get (operations.parents parent) 0 }
{
    match parent {
        Some(made_at) => used(NameUse::Tag, made_at),
        None => None,
    }
}

impl<'s> OpAbout<'s> {
    /// Returns an operation that makes and uses these names, and has no items.
    fn with_names(word: OpWord, makes: Option<MadeName<'s>>, uses: Option<UsedName>) -> OpAbout<'s>
        ensures word { result.word ≡ word }
        ensures makes { option_map operations.made result.makes ≡ option_map operations.made makes.entry }
        ensures uses { result.uses ≡ uses }
        ensures items { result.items.now ≡ [] }
        ensures loads { result.loads ≡ None }
    {
        OpAbout {
            word,
            makes,
            uses,
            items: &[],
            loads: None,
        }
    }

    /// Returns an operation that uses the map that was made at a place, and has no items.
    fn of_map(word: OpWord, made_at: u32) -> OpAbout<'s>
        ensures word { result.word ≡ word }
        ensures makes { option_map operations.made result.makes ≡ None }
        ensures uses { result.uses ≡ Some (operations.map_at made_at) }
        ensures items { result.items.now ≡ [] }
        ensures loads { result.loads ≡ None }
    {
        OpAbout::with_names(word, None, used(NameUse::Map, made_at))
    }
}

impl ItemAbout {
    /// Returns an item that uses the map that was made at a place.
    fn of_map(word: ItemWord, made_at: u32) -> ItemAbout
        ensures word { result.word ≡ word }
        ensures uses { result.uses ≡ operations.map_at made_at }
    {
        ItemAbout {
            word,
            uses: UsedName {
                used_as: NameUse::Map,
                made_at,
            },
        }
    }

    /// Returns an item that uses the IOMMU tag that was made at a place.
    fn of_tag(word: ItemWord, made_at: u32) -> ItemAbout
        ensures word { result.word ≡ word }
        ensures uses { result.uses ≡ operations.iommu_tag_at made_at }
    {
        ItemAbout {
            word,
            uses: UsedName {
                used_as: NameUse::IommuTag,
                made_at,
            },
        }
    }
}

impl Op {
    /// Returns what the operation is about.
    pub fn about(&self) -> OpAbout<'_>
        ensures word { result.word ≡ (operations.about self.now).word }
        ensures makes { option_map operations.made result.makes ≡ (operations.about self.now).makes }
        ensures uses { result.uses ≡ slice_get (operations.about self.now).uses 0 }
        ensures items { result.items.now ≡ operations.items_of self.now }
        ensures loads { option_map (λ buffer. buffer.now) result.loads ≡ (operations.about self.now).loads }
    {
        match self {
            Op::Tag { name, parent, .. } => {
                OpAbout::with_names(OpWord::Tag, made(NameKind::Tag, name), parent_at(*parent))
            }
            Op::IommuTag { name, .. } => {
                OpAbout::with_names(OpWord::IommuTag, made(NameKind::IommuTag, name), None)
            }
            Op::TagDestroy { tag } => {
                OpAbout::with_names(OpWord::TagDestroy, None, used(NameUse::AnyTag, *tag))
            }
            Op::Map { name, tag } => OpAbout::with_names(
                OpWord::Map,
                made(NameKind::Map, name),
                used(NameUse::AnyTag, *tag),
            ),
            Op::MapDestroy { map } => {
                OpAbout::with_names(OpWord::MapDestroy, None, used(NameUse::MapAlone, *map))
            }
            Op::Dmamem { name, tag, .. } => OpAbout::with_names(
                OpWord::Dmamem,
                made(NameKind::Memory, name),
                used(NameUse::Tag, *tag),
            ),
            Op::DmamemFree { mem } => {
                OpAbout::with_names(OpWord::DmamemFree, None, used(NameUse::Memory, *mem))
            }
            Op::Load {
                map,
                buffer,
                then,
                ..
            } => OpAbout {
                items: then.as_slice(),
                loads: Some(buffer),
                ..OpAbout::of_map(buffer.word(), *map)
            },
            Op::Unload { map } => OpAbout::of_map(OpWord::Unload, *map),
            Op::Sync { map, .. } => OpAbout::of_map(OpWord::Sync, *map),
            Op::SyncRange { map, .. } => OpAbout::of_map(OpWord::SyncRange, *map),
            Op::CpuRead { .. } => OpAbout::with_names(OpWord::CpuRead, None, None),
            Op::CpuWrite { .. } => OpAbout::with_names(OpWord::CpuWrite, None, None),
            Op::Await { map } => OpAbout::of_map(OpWord::Await, *map),
            Op::Ring { name, mem, .. } => OpAbout::with_names(
                OpWord::Ring,
                made(NameKind::Ring, name),
                used(NameUse::Memory, *mem),
            ),
            Op::RingPost { ring, .. } => {
                OpAbout::with_names(OpWord::RingPost, None, used(NameUse::Ring, *ring))
            }
            Op::Kick { ring, steps } => OpAbout {
                items: steps.as_slice(),
                ..OpAbout::with_names(OpWord::Kick, None, used(NameUse::Ring, *ring))
            },
        }
    }

    /// Returns the operation's word.
    pub fn word(&self) -> OpWord
        ensures { result ≡ (operations.about self.now).word }
    {
        self.about().word
    }

    /// Returns the items of the operation, in the order of the device's work.
    pub fn items(&self) -> &[Item]
        ensures { result.now ≡ operations.items_of self.now }
    {
        self.about().items
    }

    /// Returns the buffer that the operation loads, or `None` if it does not load.
    pub fn loads(&self) -> Option<&Buffer>
        ensures { option_map (λ buffer. buffer.now) result ≡ (operations.about self.now).loads }
    {
        self.about().loads
    }

    /// Returns the name that a line of a journal shows for the operation, or `None` for an access of the
    /// driver to its memory.
    pub fn object(&self) -> Option<Object<'_>>
        ensures { option_map operations.object result ≡ operations.object_of (operations.about self.now) }
    {
        let about = self.about();
        match (about.makes, about.uses) {
            (Some(made), _) => Some(Object::Makes(made)),
            (None, Some(used)) => Some(Object::Uses(used)),
            (None, None) => None,
        }
    }

    /// Returns the name that the operation makes, or `None` if it makes no name.
    pub fn made_name(&self) -> Option<&str>
        ensures { option_map (λ name. name.now) result ≡ operations.name_made_by self.now }
    {
        match self.about().makes {
            Some(made) => Some(made.name),
            None => None,
        }
    }

    /// Returns whether the operation makes the name, for a thing of any kind.
    pub fn makes(&self, name: &str) -> bool
        ensures { result ≡ names.makes name.now self.now }
    {
        match self.about().makes {
            Some(made) => made.name == name,
            None => false,
        }
    }

    /// Returns whether the operation makes the name, for a thing that can be used in this way.
    pub fn makes_for(&self, used_as: NameUse, name: &str) -> bool
        ensures { result ≡ names.makes_for used_as name.now self.now }
    {
        match self.about().makes {
            Some(made) => used_as.accepts(made.kind) && made.name == name,
            None => false,
        }
    }
}

impl Item {
    /// Returns what the item is about.
    pub fn about(&self) -> ItemAbout
        ensures word { result.word ≡ (operations.about_item self.now).word }
        ensures uses { result.uses ≡ (operations.about_item self.now).uses }
    {
        match self {
            Item::Sync { map, .. } => ItemAbout::of_map(ItemWord::Sync, *map),
            Item::SyncRange { map, .. } => ItemAbout::of_map(ItemWord::SyncRange, *map),
            Item::DevRead { map, .. } => ItemAbout::of_map(ItemWord::DevRead, *map),
            Item::DevWrite { map, .. } => ItemAbout::of_map(ItemWord::DevWrite, *map),
            Item::DevReadAt { tag, .. } => ItemAbout::of_tag(ItemWord::DevReadAt, *tag),
            Item::DevWriteAt { tag, .. } => ItemAbout::of_tag(ItemWord::DevWriteAt, *tag),
            Item::RingStep { ring } => ItemAbout {
                word: ItemWord::RingStep,
                uses: UsedName {
                    used_as: NameUse::Ring,
                    made_at: *ring,
                },
            },
        }
    }

    /// Returns the item's word.
    pub fn word(&self) -> ItemWord
        ensures { result ≡ (operations.about_item self.now).word }
    {
        self.about().word
    }

    /// Returns the name that the item uses.
    pub fn uses(&self) -> UsedName
        ensures { result ≡ (operations.about_item self.now).uses }
    {
        self.about().uses
    }
}
