// The prefixes of dossiers: what is missing from each, worked out by another program that follows the format's own words.
use super::*;
use crate::anyhow_tests::{Answer, anyhow};
use df_lang::SourceFault;
use std::alloc::Global;

const HEAD: DossierFault = DossierFault::BadHead;

const WORD: DossierFault = DossierFault::BadSource(SourceFault::BadWord);

const ENTRY: DossierFault = DossierFault::BadEntry;

const DESIGN: DossierFault = DossierFault::BadDesign;

const END: DossierFault = DossierFault::BadEnd;

// The prefixes up to the byte of a row, from the one after the last row, have its fault at its line, and those after all
// rows say the path of this length.
fn are_read(alloc: Global, text: &[u8], rows: &[(usize, u64, DossierFault)], length: u32) -> bool {
    let mut end = 0usize;
    for (last, line, fault) in rows {
        for _ in 0..100u32 {
            if end > *last || end > text.len() {
                break;
            }
            if anyhow(alloc, &text[..end]) != Answer::Fault(*line, *fault) {
                return false;
            }
            end += 1;
        }
    }
    let mut some = false;
    for _ in 0..20u32 {
        if end > text.len() {
            break;
        }
        some = true;
        if anyhow(alloc, &text[..end]) != Answer::Path(length) {
            return false;
        }
        end += 1;
    }
    some && end > text.len()
}

#[test]
fn prefixes_of_a_plane_are_refused(rt: HostRuntime) {
    let text =
        b"dossier 2\nsource 3\ngroup 7\nk 3\nlambda 1\nfrom 0\nbranch 0\nsettled\ndesign 0 1 3\nend spent designs 1 nodes 2 next 1\n";
    let rows = [
        (0, 0, HEAD),
        (8, 1, HEAD),
        (10, 0, HEAD),
        (17, 2, HEAD),
        (31, 0, HEAD),
        (38, 5, WORD),
        (40, 0, HEAD),
        (45, 6, HEAD),
        (47, 0, END),
        (54, 7, ENTRY),
        (56, 0, END),
        (62, 8, ENTRY),
        (64, 0, END),
        (69, 9, ENTRY),
        (71, 0, END),
        (75, 9, DESIGN),
        (77, 0, END),
        (79, 10, ENTRY),
        (110, 10, END),
    ];
    assert!(rt; are_read(rt.alloc(), text, &rows, 1));
}

#[test]
fn prefixes_of_a_plain_dossier_are_refused(rt: HostRuntime) {
    let text =
        b"#\r\ndossier\t1 # a\r\n\nsource 05\r\ngroup 7\r\n# c\n\nk 3\r\nlambda 1\n\t\nfrom 3 0 2 #\r\nbranch 1\n# block\nover 20\r\n\nunder 0\nsettled\ndesign 0 1 3 ; 2 4 5\r\ndesign\nend spent designs 18 nodes 7 next 3 0 2\r\n# e\n";
    let rows = [
        (3, 0, HEAD),
        (11, 2, HEAD),
        (19, 0, HEAD),
        (27, 4, HEAD),
        (49, 0, HEAD),
        (56, 9, WORD),
        (60, 0, HEAD),
        (65, 11, HEAD),
        (74, 0, END),
        (81, 12, ENTRY),
        (91, 0, END),
        (96, 14, ENTRY),
        (101, 0, END),
        (107, 16, ENTRY),
        (109, 0, END),
        (115, 17, ENTRY),
        (117, 0, END),
        (122, 18, ENTRY),
        (124, 0, END),
        (128, 18, DESIGN),
        (130, 0, END),
        (136, 18, DESIGN),
        (139, 0, END),
        (144, 19, ENTRY),
        (146, 0, END),
        (148, 20, ENTRY),
        (180, 20, END),
    ];
    assert!(rt; are_read(rt.alloc(), text, &rows, 3));
}

#[test]
fn prefixes_of_a_dossier_with_residues_and_cuts_are_refused(rt: HostRuntime) {
    let text =
        b"dossier 2\nsource 3\ngroup 7\nk 3\nlambda 1\nfrom 1\nresidue 1 2\ncut 2 0 -1 12\nover 3\nsettled\ndesign 1 2 4\nend spent designs 1 nodes 2 next 1 0 # x\n\n";
    let rows = [
        (0, 0, HEAD),
        (8, 1, HEAD),
        (10, 0, HEAD),
        (17, 2, HEAD),
        (31, 0, HEAD),
        (38, 5, WORD),
        (40, 0, HEAD),
        (45, 6, HEAD),
        (47, 0, END),
        (57, 7, ENTRY),
        (59, 0, END),
        (65, 8, ENTRY),
        (67, 0, END),
        (70, 8, ENTRY),
        (73, 0, END),
        (78, 9, ENTRY),
        (80, 0, END),
        (86, 10, ENTRY),
        (88, 0, END),
        (93, 11, ENTRY),
        (95, 0, END),
        (99, 11, DESIGN),
        (101, 0, END),
        (103, 12, ENTRY),
        (134, 12, END),
    ];
    assert!(rt; are_read(rt.alloc(), text, &rows, 1));
}
