//! Why a run of the program stops.
ghost use Rattle.std.specs.Prelude.{◌≡◌};
ghost use Rattle.programs.specs.chunkplan.Common.{Memory};
ghost use Rattle.programs.specs.chunkplan.RunFault.{of_create, of_document, of_refusal, of_region, of_stream, of_tasks};

use crate::chunkplan::known_members::UnknownMember;
use crate::chunkplan::member_rules::MemberRule;
use documents::{CreateFault, DocumentFault};
use std::alloc::AllocError;
use streams::StreamFault;
use thiserror::Error;
use zarrs_chunk_base::{
    ArraySubsetError, IncompatibleDimensionalityError, MetadataError, PluginCreateError, Refusal,
};
use zarrs_chunk_plan::RegionError;
use zarrs_chunk_tasks::TasksError;

/// Why a run stops. Nothing has been written, except on `Write`, and on `Memory`, where a beginning of the plan may have been.
#[derive(Debug, Drop, Error)]
pub enum RunFault {
    /// A read failed.
    #[error("input failed")]
    Read,
    /// The input is no text of JSON.
    #[error("document is not JSON")]
    NotJson,
    /// The document is no JSON object.
    #[error("document is not an object")]
    NotObject,
    /// A member of the document isn't known.
    #[error(transparent)]
    Unknown(UnknownMember),
    /// A member of the document is missing.
    #[error("missing field `{0}`")]
    Missing(&'static str),
    /// A member of the document isn't of its form.
    #[error("wrong value in field `{0}`")]
    WrongValue(&'static str),
    /// A member of the document is no extension's metadata.
    #[error("field `{0}`: {1}")]
    Metadata(&'static str, MetadataError),
    /// A member of the document is no box.
    #[error("field `{0}`: {1}")]
    Box(&'static str, ArraySubsetError),
    /// A member of the document doesn't go with the others.
    #[error(transparent)]
    Misfit(MemberRule),
    /// The document has keys after it, and isn't the first line alone.
    #[error("field `keys`: the document must be one line, the first, and each line after it a key")]
    KeysOfLongDocument,
    /// A member of the target isn't known.
    #[error("field `target`: {0}")]
    UnknownOfTarget(UnknownMember),
    /// The target has another shape than the array.
    #[error("field `target.shape`: it isn't the array's: a rechunking keeps the shape")]
    OtherShape,
    /// The target has another data type than the array.
    #[error("field `target.data_type`: it isn't the array's: a copy keeps the data type")]
    OtherDataType,
    /// The document's chunk grid can't be made.
    #[error(transparent)]
    Grid(PluginCreateError),
    /// The document's chunk key encoding can't be made.
    #[error(transparent)]
    Encoding(PluginCreateError),
    /// The target's chunk grid can't be made.
    #[error("field `target`: {0}")]
    TargetGrid(PluginCreateError),
    /// The target's chunk key encoding can't be made.
    #[error("field `target`: {0}")]
    TargetEncoding(PluginCreateError),
    /// The document's chunk grid can't be made of the new shape.
    #[error("field `resize`: {0}")]
    ResizedGrid(PluginCreateError),
    /// The box of elements has another number of dimensions than the array.
    #[error("field `subset`: {0}")]
    SubsetDimensionality(IncompatibleDimensionalityError),
    /// The first or the last element of the box lies in no chunk.
    #[error("field `subset`: it reaches past the chunks of the grid")]
    Uncovered,
    /// The target's array has another number of dimensions than the array.
    #[error("field `target`: {0}")]
    TargetDimensionality(IncompatibleDimensionalityError),
    /// The index at which the region begins in the target's array has another number of dimensions than the array.
    #[error("field `at`: {0}")]
    AtDimensionality(IncompatibleDimensionalityError),
    /// The region doesn't lie in the array.
    #[error("field `subset`: it ends past the array: start plus shape is to be at most the array shape")]
    PastArray,
    /// The region doesn't lie in the target's array where it goes.
    #[error("field `at`: the box ends past the target's array: `at`, which is 0 where it is left out, plus the box's shape is to be at most that array's shape")]
    PastTarget,
    /// The box of the target's chunks has another number of dimensions than the target.
    #[error("field `chunks`: {0}")]
    ChunksDimensionality(IncompatibleDimensionalityError),
    /// There are more or fewer numbers of chunks a task than dimensions.
    #[error("field `task_chunks`: {0}")]
    TaskChunks(IncompatibleDimensionalityError),
    /// No tasks hold so few elements.
    #[error("field `max_elements`: no tasks hold so few elements; raise it")]
    NoTasksFit,
    /// There are too many chunks to choose tasks.
    #[error("field `max_elements`: more than 131072 chunks lie along a dimension that isn't regular; give `task_chunks` in its place")]
    TooManyToChoose,
    /// There are too many chunks to count tasks.
    #[error("field `counts`: more than 1048576 chunks lie along a dimension that isn't regular; ask for the lines")]
    TooManyToCount,
    /// The lines of one stage are asked for, but the copy has several.
    #[error("the copy has several stages; ask for the lines of one with `stage`, or for `counts`, which lists them")]
    SeveralStages,
    /// The copy has fewer stages.
    #[error("field `stage`: the copy has fewer stages; ask for `counts`, which lists them")]
    NoSuchStage,
    /// The stage writes more chunks than there are bits for, one a chunk.
    #[error("field `keys`: more than 536870911 chunks are written: plan the chunks of a smaller box with `chunks`, or a smaller region")]
    TooManyForKeys,
    /// The line with this number isn't UTF-8. The document is line 1.
    #[error("field `keys`: line {0} is not UTF-8")]
    KeyNotText(u64),
    /// A write or the flush failed, or a write took nothing. A beginning of the plan may have been written.
    #[error("output failed")]
    Write,
    /// Out of memory.
    #[error("out of memory")]
    Memory,
}

impl From<AllocError> for RunFault {
    ghost from_gives = { λ _ fault. fault ≡ Memory };

    fn from(_error: AllocError) -> RunFault {
        RunFault::Memory
    }
}

impl From<StreamFault> for RunFault {
    ghost from_gives = { λ told fault. fault ≡ of_stream told };

    fn from(told: StreamFault) -> RunFault {
        match told {
            StreamFault::Read => RunFault::Read,
            StreamFault::Write => RunFault::Write,
            StreamFault::Memory => RunFault::Memory,
        }
    }
}

impl From<DocumentFault> for RunFault {
    ghost from_gives = { λ told fault. fault ≡ of_document told };

    fn from(told: DocumentFault) -> RunFault {
        match told {
            DocumentFault::NotJson => RunFault::NotJson,
            DocumentFault::NotObject => RunFault::NotObject,
            DocumentFault::Missing(field) => RunFault::Missing(field),
            DocumentFault::WrongValue(field) => RunFault::WrongValue(field),
            DocumentFault::Metadata(field, error) => RunFault::Metadata(field, error),
            DocumentFault::Memory => RunFault::Memory,
        }
    }
}

impl From<CreateFault> for RunFault {
    ghost from_gives = { λ told fault. fault ≡ of_create told };

    fn from(told: CreateFault) -> RunFault {
        match told {
            CreateFault::Grid(error) => RunFault::Grid(error),
            CreateFault::Encoding(error) => RunFault::Encoding(error),
            CreateFault::Memory => RunFault::Memory,
        }
    }
}

impl From<Refusal<RegionError>> for RunFault {
    ghost from_gives = { λ refusal fault. fault ≡ of_refusal of_region refusal };

    fn from(refusal: Refusal<RegionError>) -> RunFault {
        match refusal {
            Refusal::Refused(error) => of_region(error),
            Refusal::Memory(_) => RunFault::Memory,
        }
    }
}

impl From<Refusal<TasksError>> for RunFault {
    ghost from_gives = { λ refusal fault. fault ≡ of_refusal of_tasks refusal };

    fn from(refusal: Refusal<TasksError>) -> RunFault {
        match refusal {
            Refusal::Refused(TasksError::TaskChunks(error)) => RunFault::TaskChunks(error),
            Refusal::Refused(TasksError::Region(error)) => of_region(error),
            Refusal::Memory(_) => RunFault::Memory,
        }
    }
}

/// Why a region can't be copied.
fn of_region(error: RegionError) -> RunFault
    ensures { result ≡ of_region error }
{
    match error {
        RegionError::Region(error) => RunFault::SubsetDimensionality(error),
        RegionError::Target(error) => RunFault::TargetDimensionality(error),
        RegionError::At(error) => RunFault::AtDimensionality(error),
        RegionError::PastSource => RunFault::PastArray,
        RegionError::PastTarget => RunFault::PastTarget,
    }
}
