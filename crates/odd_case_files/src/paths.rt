use crate::fault::CaseFault;
use std::fs;
use std::rt::Files;

// How deep folders may lie in one another.
const LEVELS: usize = 8;

/// The paths of the files in a folder and in the folders below it, sorted.
pub fn sorted_paths<R: Files + AllocGlobal + Clone + Drop>(
    rt: &R,
    folder: &str,
) -> Result<Vec<String>, CaseFault> {
    let mut paths = Vec::new(rt.alloc());
    let mut folders = vec![in rt.alloc(); String::from_str(rt.alloc(), folder)?]?;
    for _level in 0..LEVELS {
        folders = add_level(rt, &mut paths, folders.as_slice())?;
    }
    if !folders.is_empty() {
        return Err(CaseFault::TooDeep);
    }
    paths.sort_unstable();
    Ok(paths)
}

// Puts the paths of the files in the folders, and gives those of the folders in them.
fn add_level<R: Files + AllocGlobal + Clone + Drop>(
    rt: &R,
    paths: &mut Vec<String>,
    folders: &[String],
) -> Result<Vec<String>, CaseFault> {
    let mut below = Vec::new(rt.alloc());
    for folder in folders {
        add_folder(rt, paths, &mut below, folder.as_str())?;
    }
    Ok(below)
}

// Puts the paths of the files in a folder, and those of the folders in it.
fn add_folder<R: Files + AllocGlobal + Clone + Drop>(
    rt: &R,
    paths: &mut Vec<String>,
    below: &mut Vec<String>,
    folder: &str,
) -> Result<(), CaseFault> {
    for entry in fs::read_dir(rt, folder)? {
        let entry = entry?;
        let path = String::from_str(rt.alloc(), entry.path().as_str())?;
        if entry.file_type()?.is_dir() {
            below.push(path)?;
        } else {
            paths.push(path)?;
        }
    }
    Ok(())
}
