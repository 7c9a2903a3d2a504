//! Why a call on a folder of the system failed.
ghost use Rattle.std.specs.Prelude.{◌≡◌, ◌≢◌, ◌≤◌, pos, length, Some};
ghost use Rattle.std.specs.IoError.{error_kind, raw_os_error};
ghost use Rattle.morris_files.specs.Reasons.{reason_of, reason_text};

use std::alloc::AllocError;
use std::io;
use std::io::ErrorKind;

/// Why a call on a folder of the system failed: what the system said, or what is wrong with what it
/// was asked for.
#[derive(Clone, Copy, Debug, PartialEq, Eq)]
pub enum Reason {
    /// Nothing stands under the path.
    NotFound,
    /// It isn't permitted.
    NotPermitted,
    /// Something stands under the path already.
    Exists,
    /// What is used as a folder is none.
    NotAFolder,
    /// What is used as a file is a folder.
    IsAFolder,
    /// A folder isn't empty.
    NotEmpty,
    /// The file system can only be read.
    ReadOnly,
    /// There are too many symbolic links to follow, as where they go round.
    Loop,
    /// The device is full.
    Full,
    /// The user's share of the device is full.
    Quota,
    /// The file is larger than it may be.
    TooLarge,
    /// A name is too long.
    BadName,
    /// It is in use.
    Busy,
    /// The device failed.
    Device,
    /// The file system can't do this.
    Unsupported,
    /// It is neither a file with bytes of its own nor a folder, but a pipe, a device or a socket.
    Irregular,
    /// The path is empty.
    Nameless,
    /// Memory was refused.
    Memory,
    /// Another one.
    Other,
}

impl Reason {
    /// The reason of a fault of the system.
    pub fn of(fault: &io::Error) -> Reason
        ensures device { raw_os_error fault.now ≡ Some (pos 5) → result ≡ Reason.Device }
        ensures kind { raw_os_error fault.now ≢ Some (pos 5) → result ≡ reason_of (error_kind fault.now) }
    {
        if fault.raw_os_error() == Some(INPUT_OUTPUT) {
            return Reason::Device;
        }
        match fault.kind() {
            ErrorKind::NotFound => Reason::NotFound,
            ErrorKind::PermissionDenied => Reason::NotPermitted,
            ErrorKind::AlreadyExists => Reason::Exists,
            ErrorKind::NotADirectory => Reason::NotAFolder,
            ErrorKind::IsADirectory => Reason::IsAFolder,
            ErrorKind::DirectoryNotEmpty => Reason::NotEmpty,
            ErrorKind::ReadOnlyFilesystem => Reason::ReadOnly,
            ErrorKind::FilesystemLoop => Reason::Loop,
            ErrorKind::StorageFull => Reason::Full,
            ErrorKind::QuotaExceeded => Reason::Quota,
            ErrorKind::FileTooLarge => Reason::TooLarge,
            ErrorKind::InvalidFilename => Reason::BadName,
            ErrorKind::ResourceBusy | ErrorKind::ExecutableFileBusy => Reason::Busy,
            ErrorKind::Unsupported => Reason::Unsupported,
            ErrorKind::OutOfMemory => Reason::Memory,
            _ => Reason::Other,
        }
    }

    /// The reason in words: the system's own, where it has some.
    pub fn text(self) -> &'static str
        ensures text { result.now ≡ reason_text self }
        ensures short { length result.now ≤ 64 }
    {
        match self {
            Reason::NotFound => "No such file or directory",
            Reason::NotPermitted => "Permission denied",
            Reason::Exists => "File exists",
            Reason::NotAFolder => "Not a directory",
            Reason::IsAFolder => "Is a directory",
            Reason::NotEmpty => "Directory not empty",
            Reason::ReadOnly => "Read-only file system",
            Reason::Loop => "Too many levels of symbolic links",
            Reason::Full => "No space left on device",
            Reason::Quota => "Disk quota exceeded",
            Reason::TooLarge => "File too large",
            Reason::BadName => "File name too long",
            Reason::Busy => "Device or resource busy",
            Reason::Device => "Input/output error",
            Reason::Unsupported => "Operation not supported",
            Reason::Irregular => "not a regular file",
            Reason::Nameless => "its name is empty",
            Reason::Memory => "Cannot allocate memory",
            Reason::Other => "Unknown error",
        }
    }
}

/// The number that Linux gives a fault of a device, which has no kind of its own.
const INPUT_OUTPUT: i32 = 5;

impl From<io::Error> for Reason {
    fn from(fault: io::Error) -> Reason {
        Reason::of(&fault)
    }
}

impl From<AllocError> for Reason {
    fn from(_: AllocError) -> Reason {
        Reason::Memory
    }
}
