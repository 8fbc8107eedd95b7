ghost use Rattle.std.specs.Prelude.{◌≡◌};
ghost use Rattle.amx_ops.specs.declared.amx.Amx.{Amx};
ghost use Rattle.amx_format.specs.Header.{header_of, is_compact};
ghost use Rattle.amx_format.specs.File.{AFileIsOfOneAmx, IsFile};
ghost use Rattle.amx_format.specs.Sorts.{SortedTablesStay};
ghost use Rattle.amx_format.specs.Written.{SortedIsWrittenAsItIs, WhatIsWrittenIsRead};

use super::header::Header;

/// The size that a file's header states.
pub fn file_size(bytes: &[u8]) -> u32
    requires { (amx : Amx) × IsFile bytes.now amx }
    ensures { result ≡ (header_of bytes.now).size }
{
    Header::read(bytes).size
}

/// The place of a file's code.
pub fn code_place(bytes: &[u8]) -> u32
    requires { (amx : Amx) × IsFile bytes.now amx }
    ensures { result ≡ (header_of bytes.now).cod }
{
    Header::read(bytes).cod
}

/// Whether a file's code and data are compact cells.
pub fn is_compact(bytes: &[u8]) -> bool
    requires { (amx : Amx) × IsFile bytes.now amx }
    ensures { result ≡ is_compact (header_of bytes.now).flags }
{
    Header::read(bytes).is_compact()
}

/// Bytes are the file of one Amx at most.
#[tactic(auto, using(crate::proofs::Determines::file_determines))]
pub fn a_file_is_of_one_amx()
    ensures { AFileIsOfOneAmx }
{}

/// What is written is read back, with its publics sorted.
pub fn what_is_written_is_read()
    ensures { WhatIsWrittenIsRead }
{}

/// Publics in the order of their names are written as they are.
#[tactic(auto, using(crate::proofs::SortLaws::sorted_tables_stay))]
pub fn sorted_tables_stay()
    ensures tables { SortedTablesStay }
    ensures written { SortedIsWrittenAsItIs }
{}
