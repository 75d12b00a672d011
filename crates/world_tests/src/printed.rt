// What lines are printed as.
use global_model::{Line, Lines, word_count};
use scenario_text::{print_line, read_command, read_line};
use std::alloc::{AllocError, Global};

// The texts of lines, each with its line feed.
pub fn text_of(alloc: Global, lines: &[Line]) -> Result<Vec<u8>, AllocError> {
    let mut out = Vec::new(alloc);
    for line in lines {
        print_line(line, &mut out)?;
    }
    Ok(out)
}

// Whether these are all lines. Begins again with none.
pub fn wrote(alloc: Global, out: &mut Lines, want: &str) -> Result<bool, AllocError> {
    let text = text_of(alloc, out.as_slice())?;
    *out = Lines::new(alloc);
    Ok(text.as_slice() == want.as_bytes())
}

// Whether the line is printed as these two texts and a line feed, behind what stands there.
pub fn is_printed(alloc: Global, line: &Line, front: &str, text: &str) -> Result<bool, AllocError> {
    let mut printed = Vec::from_slice(alloc, b">")?;
    print_line(line, &mut printed)?;
    let mut wanted = Vec::from_slice(alloc, b">")?;
    wanted.extend_from_slice(front.as_bytes())?;
    wanted.extend_from_slice(text.as_bytes())?;
    wanted.push(b'\n')?;
    Ok(printed == wanted)
}

// Whether the text is a command, which is printed behind `do` as it stands.
pub fn is_command(alloc: Global, text: &str) -> Result<bool, AllocError> {
    match read_command(text.as_bytes()) {
        Ok(Some(command)) => is_printed(alloc, &Line::Do { command }, "do ", text),
        _ => Ok(false),
    }
}

// Whether the text is a line, which is printed as it stands and has as many words as the text.
pub fn is_line(alloc: Global, text: &str) -> Result<bool, AllocError> {
    match read_line(alloc, text.as_bytes())? {
        Some(line) => {
            let words = text.split(' ').count() as u64;
            Ok(is_printed(alloc, &line, "", text)? && word_count(&line) == words)
        }
        None => Ok(false),
    }
}

// Whether the text is no line.
pub fn is_no_line(alloc: Global, text: &str) -> Result<bool, AllocError> {
    Ok(read_line(alloc, text.as_bytes())?.is_none())
}
