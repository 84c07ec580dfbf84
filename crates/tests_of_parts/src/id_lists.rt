use lwp_types::{IdList, NoMemory};

fn are(ids: &IdList, wanted: &[u64]) -> bool {
    if ids.len() != wanted.len() {
        return false;
    }
    for i in 0..ids.len() {
        if ids.get(i) != wanted[i] {
            return false;
        }
    }
    true
}

// Whether a part had memory to list its numbers, and these are they.
pub fn holds(ids: Result<IdList, NoMemory>, wanted: &[u64]) -> bool {
    let Ok(ids) = ids else {
        return false;
    };
    are(&ids, wanted)
}
