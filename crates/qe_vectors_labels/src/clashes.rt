//! The first two labels of a list by hand that share an identifier.

use crate::line::{Shown, item_of, kind_of, numbers_of};
use qe_label_list::LabelList;
use qe_line::Fault;
use qe_rising::push_label;
use qe_tokens::Label;
use std::alloc::Global;

/// Prints the first clash of labels in rising order. A label is four numbers: its kind, its item, its number, and the byte
/// that its identifier repeats.
pub fn print(rt: &(impl Print + AllocGlobal), labels: &str) -> Result<(), Fault> {
    let list = list_of(rt.alloc(), labels)?;
    match list.clash()? {
        Some((first, second)) => println!(rt; "clash {}, {}", Shown(&first), Shown(&second))?,
        None => println!(rt; "no clash")?,
    }
    Ok(())
}

fn list_of(alloc: Global, labels: &str) -> Result<LabelList, Fault> {
    let mut list = LabelList::new(alloc);
    for label in labels.split(' ') {
        let [kind, item, number, identifier] = numbers_of::<4>(label)?;
        let label = Label {
            kind: kind_of(kind)?,
            word: item_of(alloc, 0, item, 0)?,
            number,
        };
        if !push_label(&mut list, label, [(identifier & 0xff) as u8; 32])? {
            return Err(Fault::Refused);
        }
    }
    Ok(list)
}
