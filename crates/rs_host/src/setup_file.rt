//! Reads the configuration of an exchange, and the lists that it names.
//!
//! Our choice: a file that gives its octets only once can't be read for two purposes. So a pipe isn't two of these: a
//! configuration, a list or VRP file, and a peer's recorded file.

ghost use Rattle.std.specs.Prelude.{◌≡◌, IfOk, length};

use crate::list_disk::Disk;
use crate::unready::Unready;
use rs_setup::{Setup, a_configuration_has_a_file_for_each_peer, read_whole_setup};
use std::fs::Files;

/// Reads the configuration at a path, and the VRP file and the lists that it names. Fails with `Unread` and the path if
/// one of these files can't be read, with `Setup` if the configuration or a list is refused, with `Memory` if memory is
/// refused. Fails with `Unread`, too, for a file that would be read again, as a recorded file say, and gives its octets
/// only once.
pub fn configuration<R: AllocGlobal + Files>(rt: &R, path: &str) -> Result<Setup, Unready>
    ensures { IfOk result (λ setup. length setup.files.items ≡ length setup.plan.value.peers) }
{
    let disk = Disk::new(rt);
    let setup = setup_at(&disk, path)?;
    refuse_again(&disk, &setup)?;
    Ok(setup)
}

/// Reads two configurations, and the lists that they name: those of the old one first. Fails as `configuration` does,
/// and for a file of the one that would be read again for the other one.
pub fn configurations<R: AllocGlobal + Files>(
    rt: &R,
    old: &str,
    new: &str,
) -> Result<(Setup, Setup), Unready>
    ensures old { IfOk result (λ (old, new). length old.files.items ≡ length old.plan.value.peers) }
    ensures new { IfOk result (λ (old, new). length new.files.items ≡ length new.plan.value.peers) }
{
    let disk = Disk::new(rt);
    let old = setup_at(&disk, old)?;
    let new = setup_at(&disk, new)?;
    refuse_again(&disk, &old)?;
    refuse_again(&disk, &new)?;
    Ok((old, new))
}

/// Reads the lists of a configuration whose text was read at this path, and fails as `configuration` does.
pub fn configuration_of<R: AllocGlobal + Files>(
    rt: &R,
    path: &str,
    text: &[u8],
) -> Result<Setup, Unready>
    ensures { IfOk result (λ setup. length setup.files.items ≡ length setup.plan.value.peers) }
{
    let disk = Disk::new(rt);
    disk.count_as_read(path)?;
    let setup = setup_of(&disk, text)?;
    refuse_again(&disk, &setup)?;
    Ok(setup)
}

// Reads the configuration at a path, and its lists.
fn setup_at<R: AllocGlobal + Files>(disk: &Disk<'_, R>, path: &str) -> Result<Setup, Unready>
    ensures { IfOk result (λ setup. length setup.files.items ≡ length setup.plan.value.peers) }
{
    match disk.read(path) {
        Ok(text) => setup_of(disk, &text),
        Err(fault) => Err(Unready::by_file(disk.rt.alloc(), fault, path)),
    }
}

// Reads the lists of the configuration that a text is.
fn setup_of<R: AllocGlobal + Files>(disk: &Disk<'_, R>, text: &[u8]) -> Result<Setup, Unready>
    ensures { IfOk result (λ setup. length setup.files.items ≡ length setup.plan.value.peers) }
{
    a_configuration_has_a_file_for_each_peer();
    match read_whole_setup(disk.rt.alloc(), text, disk) {
        Ok(setup) => Ok(setup),
        Err(refused) => Err(Unready::from(refused)),
    }
}

// Refuses the first recorded file of a setup that was read and gives its octets only once.
fn refuse_again<R: AllocGlobal + Files>(disk: &Disk<'_, R>, setup: &Setup) -> Result<(), Unready> {
    for begin in &setup.begins {
        refuse_read(disk, begin)?;
    }
    refuse_read(disk, &setup.files)
}

// Refuses the first file of these paths that was read and gives its octets only once.
fn refuse_read<R: AllocGlobal + Files>(
    disk: &Disk<'_, R>,
    paths: &[String],
) -> Result<(), Unready> {
    match disk.first_read(paths)? {
        Some(path) => Err(Unready::by_path(disk.rt.alloc(), path)),
        None => Ok(()),
    }
}
