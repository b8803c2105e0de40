//! Laws of whole streams and files of columns that are written from what arrays store.
//!
//! Each function here does nothing: its contract is the law, which a caller has by calling it. The statements are in `specs/`.

ghost use Rattle.ipc_format_reading_laws.specs.NormalColumns.{NormalColumnsStayWhole};
ghost use Rattle.ipc_format_reading_laws.specs.StoredTables.{StoredStreamsReadBack, StoredFilesReadBack};

/// A sound column under normalised types is sound, is written the same in either byte order, and has the same slots but for the types
/// that picks of unions name.
pub fn normal_columns_stay_whole()
    ensures { NormalColumnsStayWhole }
{}

/// What is written of batches of stored columns as a stream holds their slots, batch by batch, whatever stands behind the end mark: of
/// every type, with dictionaries that are shared between fields, nested, or replaced between batches, each batch read under those that
/// stood when it was written (Arrow IPC, "IPC Streaming Format", "Dictionary Messages").
pub fn stored_streams_read_back()
    ensures { StoredStreamsReadBack }
{}

/// The same of a file, whose dictionaries are never replaced (Arrow IPC, "IPC File Format").
pub fn stored_files_read_back()
    ensures { StoredFilesReadBack }
{}
