//! The words of operations and items.

ghost use Rattle.std.specs.Prelude.{◌≡◌, Some};
ghost use Rattle.busdma_base.specs.Scenarios.Words as words;

/// What an operation of a script does.
#[derive(Clone, Copy, Debug, PartialEq, Eq)]
pub enum OpWord {
    Tag,
    IommuTag,
    TagDestroy,
    Map,
    MapDestroy,
    Dmamem,
    DmamemFree,
    Load,
    LoadVector,
    LoadMbuf,
    LoadBio,
    Send,
    Unload,
    Sync,
    SyncRange,
    CpuRead,
    CpuWrite,
    Await,
    Ring,
    RingPost,
    Kick,
}

/// What an item of a load or of a kick does.
#[derive(Clone, Copy, Debug, PartialEq, Eq)]
pub enum ItemWord {
    Sync,
    SyncRange,
    DevRead,
    DevWrite,
    DevReadAt,
    DevWriteAt,
    RingStep,
}

const OP_WORDS: [OpWord; 21] = [
    OpWord::Tag,
    OpWord::IommuTag,
    OpWord::TagDestroy,
    OpWord::Map,
    OpWord::MapDestroy,
    OpWord::Dmamem,
    OpWord::DmamemFree,
    OpWord::Load,
    OpWord::LoadVector,
    OpWord::LoadMbuf,
    OpWord::LoadBio,
    OpWord::Send,
    OpWord::Unload,
    OpWord::Sync,
    OpWord::SyncRange,
    OpWord::CpuRead,
    OpWord::CpuWrite,
    OpWord::Await,
    OpWord::Ring,
    OpWord::RingPost,
    OpWord::Kick,
];

const ITEM_WORDS: [ItemWord; 7] = [
    ItemWord::Sync,
    ItemWord::SyncRange,
    ItemWord::DevRead,
    ItemWord::DevWrite,
    ItemWord::DevReadAt,
    ItemWord::DevWriteAt,
    ItemWord::RingStep,
];

impl OpWord {
    /// Returns the text of the word in scenarios and reports.
    pub fn text(self) -> &'static str
        ensures text { result.now ≡ words.op_word_text self }
        ensures read_again { words.op_word_of result.now ≡ Some self }
    {
        match self {
            OpWord::Tag => "tag",
            OpWord::IommuTag => "iommu_tag",
            OpWord::TagDestroy => "tag_destroy",
            OpWord::Map => "map",
            OpWord::MapDestroy => "map_destroy",
            OpWord::Dmamem => "dmamem",
            OpWord::DmamemFree => "dmamem_free",
            OpWord::Load => "load",
            OpWord::LoadVector => "load_vector",
            OpWord::LoadMbuf => "load_mbuf",
            OpWord::LoadBio => "load_bio",
            OpWord::Send => "send",
            OpWord::Unload => "unload",
            OpWord::Sync => "sync",
            OpWord::SyncRange => "sync_range",
            OpWord::CpuRead => "cpu_read",
            OpWord::CpuWrite => "cpu_write",
            OpWord::Await => "await",
            OpWord::Ring => "ring",
            OpWord::RingPost => "ring_post",
            OpWord::Kick => "kick",
        }
    }

    /// Returns the word of an operation that has this text, or `None` if no operation has it.
    pub fn from_text(text: &str) -> Option<OpWord>
        ensures { result ≡ words.op_word_of text.now }
    {
        OP_WORDS
            .iter()
            .copied()
            .find(|word| word.text().as_bytes() == text.as_bytes())
    }
}

impl ItemWord {
    /// Returns the text of the word in scenarios and reports.
    pub fn text(self) -> &'static str
        ensures text { result.now ≡ words.item_word_text self }
        ensures read_again { words.item_word_of result.now ≡ Some self }
    {
        match self {
            ItemWord::Sync => "sync",
            ItemWord::SyncRange => "sync_range",
            ItemWord::DevRead => "dev_read",
            ItemWord::DevWrite => "dev_write",
            ItemWord::DevReadAt => "dev_read_at",
            ItemWord::DevWriteAt => "dev_write_at",
            ItemWord::RingStep => "ring_step",
        }
    }

    /// Returns the word of an item that has this text, or `None` if no item has it.
    pub fn from_text(text: &str) -> Option<ItemWord>
        ensures { result ≡ words.item_word_of text.now }
    {
        ITEM_WORDS
            .iter()
            .copied()
            .find(|word| word.text().as_bytes() == text.as_bytes())
    }
}
