//! The output forms of a derivation, and the escaping that each needs.
ghost use Rattle.std.specs.Prelude.{◌≡◌, ◌++◌, OnOk, string_bytes};
ghost use Rattle.lam_check.specs.Drawings.{head, tail, markup, written, html_character, latex_character, is_special};

use std::alloc::AllocError;

#[derive(Clone, Copy, Debug, PartialEq, Eq)]
pub enum Form {
    /// Indented lines, with each premise deeper than its conclusion.
    Text,
    /// Nested collapsible sections.
    Html,
    /// Commands of the LaTeX package bussproofs.
    Latex,
}

impl Form {
    /// The beginning of a document in this form.
    #[tactic(auto, unfolding(crate::specs::Drawings::head))]
    pub fn head(self) -> &'static str
        ensures { result.now ≡ head self }
    {
        match self {
            Form::Text => "",
            Form::Html => HTML_HEAD,
            Form::Latex => LATEX_HEAD,
        }
    }

    /// The end of a document in this form.
    #[tactic(auto, unfolding(crate::specs::Drawings::tail))]
    pub fn tail(self) -> &'static str
        ensures { result.now ≡ tail self }
    {
        match self {
            Form::Text => "",
            Form::Html => "</body>\n</html>\n",
            Form::Latex => "\\DisplayProof\n\\end{document}\n",
        }
    }
}

const HTML_HEAD: &str = "<!DOCTYPE html>\n\
    <html>\n\
    <head>\n\
    <meta charset=utf-8>\n\
    <title>Derivation</title>\n\
    <style>\n\
    body { font-family: monospace; margin: 2em; }\n\
    details { border-left: 1px solid #bbb; margin-left: 0.5em; padding-left: 1em; }\n\
    summary { cursor: pointer; padding: 0.15em 0 0.15em 1.1em; text-indent: -1.1em; overflow-wrap: anywhere; }\n\
    details:not(:has(> details)) > summary { cursor: default; list-style: none; text-indent: 0; }\n\
    summary i { color: #666; padding-left: 1em; white-space: nowrap; }\n\
    </style>\n\
    </head>\n\
    <body>\n";

const LATEX_HEAD: &str = "\\documentclass[border=8pt]{standalone}\n\
    \\usepackage{bussproofs}\n\
    \\makeatletter\n\
    % five proofs side by side as one, with the next line over them all\n\
    \\def\\Five{\\prepQuinary\n\
    \\setbox\\myBoxA=\\hbox{\\theHypSeparation}%\n\
    \\global\\lcurScoreEnd=\\rrrcurScoreEnd\n\
    \\global\\advance\\lcurScoreEnd by\\wd\\rrcurBox\n\
    \\global\\advance\\lcurScoreEnd by\\wd\\rcurBox\n\
    \\global\\advance\\lcurScoreEnd by\\wd\\lcurBox\n\
    \\global\\advance\\lcurScoreEnd by\\wd\\ccurBox\n\
    \\global\\advance\\lcurScoreEnd by4\\wd\\myBoxA\n\
    \\global\\setbox\\lcurBox=\\hbox{\\box\\lcurBox\\unhcopy\\myBoxA\\box\\ccurBox\n\
    \\unhcopy\\myBoxA\\box\\rcurBox\\unhcopy\\myBoxA\\box\\rrcurBox\\unhcopy\\myBoxA\\box\\rrrcurBox}%\n\
    \\ignorespaces}\n\
    % the number of a character without a command, and the name of a command without a glyph\n\
    \\def\\UTFviii@undefined@err#1{\\expandafter\\Numbered\\string#1\\relax}\n\
    \\def\\Numbered#1:#2\\relax{[U+\\UTFviii@hexnumber{\\decode@UTFviii#2\\relax}]}\n\
    \\def\\TextSymbolUnavailable#1{[\\string#1]}\n\
    \\def\\Without#1{\\DeclareTextCommand#1{OT1}{\\TextSymbolUnavailable#1}}\n\
    \\Without\\textendash\\Without\\textemdash\\Without\\textquotedblleft\\Without\\l\\Without\\L\n\
    \\makeatother\n\
    \\begin{document}\n\
    \\frenchspacing\n";

/// The markup around the texts of steps.
#[derive(Clone, Copy, Debug, PartialEq, Eq)]
pub enum Markup {
    HtmlOpen,
    HtmlRule,
    HtmlLine,
    HtmlEnd,
    LatexAxiom,
    LatexPack,
    LatexRule,
    LatexLine,
    LatexTerm,
    LatexEnd,
}

impl Markup {
    /// Returns the characters of the markup.
    #[tactic(auto, unfolding(crate::specs::Drawings::markup))]
    pub fn text(self) -> &'static str
        ensures { result.now ≡ markup self }
    {
        match self {
            Markup::HtmlOpen => "<details open><summary>",
            Markup::HtmlRule => " <i>",
            Markup::HtmlLine => "</i></summary>\n",
            Markup::HtmlEnd => "</details>\n",
            Markup::LatexAxiom => "\\AxiomC{}\n",
            Markup::LatexPack => "\\Five\n",
            Markup::LatexRule => "\\RightLabel{\\scriptsize ",
            Markup::LatexLine => "}\n\\",
            Markup::LatexTerm => "InfC{\\texttt{",
            Markup::LatexEnd => "}}\n",
        }
    }
}

/// Appends a text, escaped for the form.
pub fn push_written(out: &mut String, form: Form, text: &str) -> Result<(), AllocError>
    ensures { OnOk result (string_bytes out.new ≡ string_bytes out.old ++ written form text.now) }
{
    match form {
        Form::Text => out.push_str(text),
        Form::Html => push_html(out, text),
        Form::Latex => push_latex(out, text),
    }
}

fn push_html(out: &mut String, text: &str) -> Result<(), AllocError>
    ensures { OnOk result (string_bytes out.new ≡ string_bytes out.old ++ written Form.Html text.now) }
{
    for c in text.chars() {
        push_html_character(out, c)?;
    }
    Ok(())
}

fn push_html_character(out: &mut String, c: char) -> Result<(), AllocError>
    ensures { OnOk result (string_bytes out.new ≡ string_bytes out.old ++ html_character c) }
{
    match c {
        '&' => out.push_str("&amp;"),
        '<' => out.push_str("&lt;"),
        '>' => out.push_str("&gt;"),
        _ => out.push(c),
    }
}

fn push_latex(out: &mut String, text: &str) -> Result<(), AllocError>
    ensures { OnOk result (string_bytes out.new ≡ string_bytes out.old ++ written Form.Latex text.now) }
{
    for c in text.chars() {
        push_latex_character(out, c)?;
    }
    Ok(())
}

fn push_latex_character(out: &mut String, c: char) -> Result<(), AllocError>
    ensures { OnOk result (string_bytes out.new ≡ string_bytes out.old ++ latex_character c) }
{
    match c {
        '\\' => out.push_str("\\char92{}"),
        '^' => out.push_str("\\char94{}"),
        '_' => out.push_str("\\char95{}"),
        '{' => out.push_str("\\char123{}"),
        '}' => out.push_str("\\char125{}"),
        '~' => out.push_str("\\char126{}"),
        '\'' => out.push_str("\\char13{}"),
        '`' => out.push_str("\\char18{}"),
        _ => {
            if is_special(c) {
                out.push('\\')?;
            }
            out.push(c)
        }
    }
}

/// Whether LaTeX needs a backslash before the character.
fn is_special(c: char) -> bool
    ensures { result ≡ is_special c }
{
    matches!(c, '#' | '$' | '%' | '&')
}
